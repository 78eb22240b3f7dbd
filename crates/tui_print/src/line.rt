//! A line of the print, assembled on the stack.

ghost use Rattle.std.specs.Prelude.{◌≡◌, ◌+◌, ◌<◌, ◌≤◌, [], ◌∷◌, ◌++◌, decimal, length};
ghost use Rattle.tui_cells.specs.ColorText.{color_text, hex_digit};

use itoa::Buffer as Digits;
use std::marker::Model;
use tui_cells::Color;

/// The most bytes of a line: two, and six fields of at most `FIELD` bytes.
const LINE: usize = 128;

/// The most bytes of a number or a colour, with one byte after it.
pub(crate) const FIELD: usize = 21;

/// A line of the print, assembled on the stack.
#[derive(Drop)]
pub(crate) struct PrintLine {
    bytes: [u8; LINE],
    len: usize,
}

impl Model for PrintLine {
    ghost use Rattle.std.specs.Prelude.{ℕ, List, ◌≤◌, take};

    ghost Value = { List ℕ };

    ghost view = { λ l. take l.len l.bytes };

    ghost invariant = { λ l. l.len ≤ 128 };
}

impl PrintLine {
    #[inline]
    pub(crate) fn new() -> PrintLine
        ensures { result ≡ [] }
    {
        PrintLine {
            bytes: [0; LINE],
            len: 0,
        }
    }

    #[inline]
    pub(crate) fn bytes(&self) -> &[u8]
        ensures { result.now ≡ self.now }
    {
        &self.bytes[..self.len]
    }

    /// Adds some bytes.
    #[inline]
    pub(crate) fn extend(&mut self, bytes: &[u8])
        requires { length self.old + length bytes.now ≤ LINE }
        ensures text { self.new ≡ self.old ++ bytes.now }
        ensures len { length self.new ≡ length self.old + length bytes.now }
    {
        let end = self.len + bytes.len();
        self.bytes[self.len..end].copy_from_slice(bytes);
        self.len = end;
    }

    /// Adds a number in decimal, and a byte after it.
    #[inline]
    pub(crate) fn number(&mut self, n: usize, after: u8)
        requires { length self.old + FIELD ≤ LINE }
        ensures text { self.new ≡ self.old ++ (decimal n ++ after ∷ []) }
        ensures len { length self.new ≤ length self.old + FIELD }
    {
        self.digits(n);
        self.extend(&[after]);
    }

    // Numbers on screens have few digits; these are written without a call.
    #[inline]
    #[tactic(auto, using(crate::proofs::Lines::one_digit, crate::proofs::Lines::two_digits, crate::proofs::Lines::three_digits))]
    fn digits(&mut self, n: usize)
        requires { length self.old + FIELD ≤ LINE }
        ensures text { self.new ≡ self.old ++ decimal n }
        ensures len { length self.new + 1 ≤ length self.old + FIELD }
    {
        let tens = n / 10;
        if n < 10 {
            self.extend(&[b'0' + n as u8]);
        } else if n < 100 {
            self.extend(&[b'0' + tens as u8, b'0' + (n % 10) as u8]);
        } else if n < 1000 {
            self.extend(&[
                b'0' + (tens / 10) as u8,
                b'0' + (tens % 10) as u8,
                b'0' + (n % 10) as u8,
            ]);
        } else {
            self.long_number(n);
        }
    }

    #[inline(never)]
    fn long_number(&mut self, n: usize)
        requires { length self.old + FIELD ≤ LINE }
        ensures text { self.new ≡ self.old ++ decimal n }
        ensures len { length self.new + 1 ≤ length self.old + FIELD }
    {
        let mut digits = Digits::new();
        self.extend(digits.format(n).as_bytes());
    }

    /// Adds a colour (its name, `#` and six hexadecimal digits, or its index), and a space after it.
    #[inline]
    pub(crate) fn color(&mut self, color: Color)
        requires { length self.old + FIELD ≤ LINE }
        ensures text { self.new ≡ self.old ++ (color_text color ++ 32 ∷ []) }
        ensures len { length self.new ≤ length self.old + FIELD }
    {
        self.color_name(color);
        self.extend(b" ");
    }

    #[tactic(auto, unfolding(tui_cells::specs::ColorText::color_text))]
    fn color_name(&mut self, color: Color)
        requires { length self.old + FIELD ≤ LINE }
        ensures text { self.new ≡ self.old ++ color_text color }
        ensures len { length self.new + 1 ≤ length self.old + FIELD }
    {
        match color {
            Color::Reset => self.extend(b"reset"),
            Color::Black => self.extend(b"black"),
            Color::Red => self.extend(b"red"),
            Color::Green => self.extend(b"green"),
            Color::Yellow => self.extend(b"yellow"),
            Color::Blue => self.extend(b"blue"),
            Color::Magenta => self.extend(b"magenta"),
            Color::Cyan => self.extend(b"cyan"),
            Color::Gray => self.extend(b"gray"),
            Color::DarkGray => self.extend(b"darkgray"),
            Color::LightRed => self.extend(b"lightred"),
            Color::LightGreen => self.extend(b"lightgreen"),
            Color::LightYellow => self.extend(b"lightyellow"),
            Color::LightBlue => self.extend(b"lightblue"),
            Color::LightMagenta => self.extend(b"lightmagenta"),
            Color::LightCyan => self.extend(b"lightcyan"),
            Color::White => self.extend(b"white"),
            Color::Rgb(red, green, blue) => self.extend(&[
                b'#',
                hex_digit(red / 16),
                hex_digit(red % 16),
                hex_digit(green / 16),
                hex_digit(green % 16),
                hex_digit(blue / 16),
                hex_digit(blue % 16),
            ]),
            Color::Indexed(n) => self.digits(n as usize),
        }
    }
}

#[inline]
fn hex_digit(n: u8) -> u8
    requires { n < 16 }
    ensures { result ≡ hex_digit n }
{
    b"0123456789abcdef"[n as usize]
}
