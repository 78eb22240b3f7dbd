//! Which symbols are sent, and which have a known width.

ghost use Rattle.std.specs.Prelude.{◌≡◌, ◌<◌, ◌&&◌, ◌||◌, [], ◌∷◌, nat_eq, nat_le, true};
ghost use Rattle.std.specs.Cmp.Lexicographic.{pointwise};
ghost use Rattle.tui_terminal.specs.Narrow.{is_narrow};
ghost use Rattle.tui_text.specs.Visible.{step_of};
ghost use Rattle.tui_terminal_model.specs.Symbols.{
  ascii_ranges,
  has_columns,
  is_among,
  is_ascii,
  is_common,
  is_ended,
  is_led,
  is_quiet,
  is_quiet_byte,
  is_skin_tone,
  is_tail,
  has_known_width,
  joins_next,
  three_byte_ranges,
  two_byte_ranges,
};
ghost use Rattle.tui_terminal_model.specs.Terminal.{reach, reach_of};

use tui_terminal_model::KnownWidths;
use tui_text::symbol_columns;
use unicode_width::UnicodeWidthChar;

/// The columns of a symbol, and whether that is a known width.
#[derive(Clone, Copy)]
pub(crate) struct Known {
    pub columns: usize,
    pub known_width: bool,
}

/// Looks up a symbol.
#[inline]
pub(crate) fn known_of(widths: KnownWidths, symbol: &str) -> Known
    ensures columns { result.columns ≡ step_of symbol.now }
    ensures known_width { result.known_width ≡ has_known_width widths symbol.now }
{
    Known {
        columns: symbol_columns(symbol),
        known_width: has_known_width(widths, symbol),
    }
}

/// Whether a symbol of this many columns may be sent, with `room` columns left in the row. A symbol of known
/// width must hold no control character.
#[inline]
pub(crate) fn is_sendable(symbol: &str, room: usize, columns: usize, known_width: bool) -> bool
    requires { (room < 65536) × (known_width ≡ true → is_quiet symbol.now ≡ true) }
    ensures { result ≡ ((is_quiet symbol.now && nat_le columns room)
        && (known_width || ((is_led symbol.now && is_ended symbol.now) && nat_le (reach symbol.now) room))) }
{
    is_allowed(symbol, room, known_width) && columns <= room
}

#[inline]
fn is_allowed(symbol: &str, room: usize, known_width: bool) -> bool
    requires { room < 65536 }
    ensures { result ≡ (known_width || (is_quiet symbol.now && ((is_led symbol.now && is_ended symbol.now) && nat_le (reach symbol.now) room))) }
{
    known_width || is_harmless(symbol, room)
}

// Whether a symbol of uncertain width begins no command and affects nothing beside it.
#[inline(never)]
fn is_harmless(symbol: &str, room: usize) -> bool
    requires { room < 65536 }
    ensures { result ≡ (is_quiet symbol.now && ((is_led symbol.now && is_ended symbol.now) && nat_le (reach symbol.now) room)) }
{
    is_quiet(symbol) && (is_led(symbol) && is_ended(symbol) && is_within_reach(symbol, room))
}

/// Whether a symbol has a known width and takes one column. Most such symbols are printable bytes.
#[inline(always)]
pub(crate) fn is_narrow(widths: KnownWidths, symbol: &str) -> bool
    ensures { result ≡ is_narrow widths symbol.now }
{
    is_ascii(symbol) || is_narrow_slow(widths, symbol)
}

#[inline(never)]
fn is_narrow_slow(widths: KnownWidths, symbol: &str) -> bool
    ensures { result ≡ is_narrow widths symbol.now }
{
    has_known_width_slow(widths, symbol) && symbol_columns(symbol) == 1
}

/// Whether a symbol has a known width.
#[inline(always)]
pub(crate) fn has_known_width(widths: KnownWidths, symbol: &str) -> bool
    ensures { result ≡ has_known_width widths symbol.now }
{
    is_ascii(symbol) || has_known_width_slow(widths, symbol)
}

#[inline(never)]
fn has_known_width_slow(widths: KnownWidths, symbol: &str) -> bool
    ensures { result ≡ has_known_width widths symbol.now }
{
    match widths {
        KnownWidths::Common => is_common(symbol),
        KnownWidths::Ascii => is_ascii(symbol),
    }
}

/// Whether a symbol is one printable byte. Its width is known to every terminal.
#[inline]
#[tactic(auto, unfolding(tui_terminal_model::specs::Symbols::is_ascii))]
pub(crate) fn is_ascii(symbol: &str) -> bool
    ensures { result ≡ is_ascii symbol.now }
{
    match symbol.as_bytes() {
        [a] => is_printable(*a),
        _ => false,
    }
}

#[tactic(auto, unfolding(tui_terminal_model::specs::Symbols::is_common))]
fn is_common(symbol: &str) -> bool
    ensures { result ≡ is_common symbol.now }
{
    match symbol.as_bytes() {
        [a] => is_printable(*a),
        [a, b] => is_common_two(*a, *b),
        [a, b, c] => is_common_three(*a, *b, *c),
        _ => false,
    }
}

#[inline]
fn is_printable(byte: u8) -> bool
    ensures { result ≡ is_among ascii_ranges byte }
{
    is_within(byte as u32, 0x20, 0x7e)
}

#[tactic(auto, unfolding(tui_terminal_model::specs::Symbols::is_common))]
fn is_common_two(a: u8, b: u8) -> bool
    ensures { result ≡ is_common (a ∷ b ∷ []) }
{
    is_tail(b) && 0xc0 <= a && is_in_two_byte_ranges(64 * (a as u32 - 0xc0) + (b as u32 - 0x80))
}

#[tactic(auto, unfolding(tui_terminal_model::specs::Symbols::is_common))]
fn is_common_three(a: u8, b: u8, c: u8) -> bool
    ensures { result ≡ is_common (a ∷ b ∷ c ∷ []) }
{
    is_tail(b)
        && is_tail(c)
        && 0xe0 <= a
        && is_three(4096 * (a as u32 - 0xe0) + (64 * (b as u32 - 0x80) + (c as u32 - 0x80)))
}

#[inline]
fn is_tail(byte: u8) -> bool
    ensures { result ≡ is_tail byte }
{
    0x80 <= byte && byte <= 0xbf
}

// Latin, Greek and Cyrillic.
fn is_in_two_byte_ranges(code: u32) -> bool
    ensures { result ≡ is_among two_byte_ranges code }
{
    is_within(code, 0xa1, 0xa8)
        | is_within(code, 0xaa, 0xac)
        | is_within(code, 0xaf, 0x2ff)
        | is_within(code, 0x370, 0x377)
        | is_within(code, 0x37a, 0x37f)
        | is_within(code, 0x384, 0x38a)
        | is_within(code, 0x38c, 0x38c)
        | is_within(code, 0x38e, 0x3a1)
        | is_within(code, 0x3a3, 0x3ff)
        | is_within(code, 0x400, 0x482)
        | is_within(code, 0x48a, 0x52f)
}

// Most text of such characters is ideographs, so these are checked first.
#[inline]
fn is_three(code: u32) -> bool
    ensures { result ≡ is_among three_byte_ranges code }
{
    is_within(code, 0x4e00, 0x9fd5) || is_in_three_byte_ranges(code)
}

// Dashes, arrows, lines, blocks, Braille, kana, ideographs, Hangul and fullwidth forms.
fn is_in_three_byte_ranges(code: u32) -> bool
    ensures { result ≡ is_among three_byte_ranges code }
{
    is_within(code, 0x2010, 0x2027)
        | is_within(code, 0x2190, 0x2193)
        | is_within(code, 0x219a, 0x21a8)
        | is_within(code, 0x21ab, 0x21ff)
        | is_within(code, 0x2500, 0x25a9)
        | is_within(code, 0x25ac, 0x25b5)
        | is_within(code, 0x25b7, 0x25bf)
        | is_within(code, 0x25c1, 0x25fa)
        | is_within(code, 0x25ff, 0x25ff)
        | is_within(code, 0x2800, 0x28ff)
        | is_within(code, 0x3001, 0x3029)
        | is_within(code, 0x3041, 0x3096)
        | is_within(code, 0x309b, 0x30ff)
        | is_within(code, 0x4e00, 0x9fd5)
        | is_within(code, 0xac00, 0xd7a3)
        | is_within(code, 0xff01, 0xff60)
        | is_within(code, 0xffe0, 0xffe6)
}

// Whether a character joins what comes after it.
fn joins_next(code: u32) -> bool
    ensures { result ≡ is_among joins_next code }
{
    is_within(code, 0x200d, 0x200d)
        | is_within(code, 0x1100, 0x115f)
        | is_within(code, 0xa960, 0xa97c)
        | is_within(code, 0x600, 0x605)
        | is_within(code, 0x6dd, 0x6dd)
        | is_within(code, 0x70f, 0x70f)
        | is_within(code, 0x890, 0x891)
        | is_within(code, 0x8e2, 0x8e2)
        | is_within(code, 0xd4e, 0xd4e)
        | is_within(code, 0x110bd, 0x110bd)
        | is_within(code, 0x110cd, 0x110cd)
        | is_within(code, 0x111c2, 0x111c3)
        | is_within(code, 0x1193f, 0x1193f)
        | is_within(code, 0x11941, 0x11941)
        | is_within(code, 0x11a3a, 0x11a3a)
        | is_within(code, 0x11a84, 0x11a89)
        | is_within(code, 0x11d46, 0x11d46)
        | is_within(code, 0x11f02, 0x11f02)
}

#[inline]
fn is_within(code: u32, low: u32, high: u32) -> bool
    ensures { result ≡ (nat_le low code && nat_le code high) }
{
    low <= code && code <= high
}

// Whether a symbol holds no control character, so that it begins no command. Most symbols that are checked
// have three bytes.
fn is_quiet(symbol: &str) -> bool
    ensures { result ≡ is_quiet symbol.now }
{
    match symbol.as_bytes() {
        [a, b, c] => is_quiet_three(*a, *b, *c),
        _ => is_quiet_text(symbol),
    }
}

#[inline]
#[tactic(auto, unfolding(tui_terminal_model::specs::Symbols::is_quiet))]
fn is_quiet_three(a: u8, b: u8, c: u8) -> bool
    ensures { result ≡ is_quiet (a ∷ b ∷ c ∷ []) }
{
    is_quiet_byte(false, a) & is_quiet_byte(a == 0xc2, b) & is_quiet_byte(b == 0xc2, c)
}

fn is_quiet_text(symbol: &str) -> bool
    ensures { result ≡ is_quiet symbol.now }
{
    let bytes = symbol.as_bytes();
    let mut after = false;
    'bytes: for i in 0..bytes.len() {
        let b = bytes[i];
        if !is_quiet_byte(after, b) {
            return false;
        }
        after = b == 0xc2;
    }
    true
}

#[inline]
fn is_quiet_byte(after: bool, b: u8) -> bool
    ensures { result ≡ is_quiet_byte after b }
{
    0x20 <= b && b != 0x7f && (!after || 0xa0 <= b)
}

// Whether the first character takes a column by itself.
#[tactic(auto, unfolding(tui_terminal_model::specs::Symbols::is_led))]
fn is_led(symbol: &str) -> bool
    ensures { result ≡ is_led symbol.now }
{
    match symbol.chars().next() {
        None => false,
        Some(c) => takes_column(c),
    }
}

fn takes_column(c: char) -> bool
    ensures { result ≡ has_columns (c ∷ []) }
{
    c.width().unwrap_or(0) > 0 && !is_skin_tone(c)
}

// Whether a character is a skin tone, which joins an emoji before it, though it has columns of its own.
fn is_skin_tone(c: char) -> bool
    ensures { result ≡ is_skin_tone c }
{
    is_within(c as u32, 0x1f3fb, 0x1f3ff)
}

// Whether the last character joins nothing that comes after it.
fn is_ended(symbol: &str) -> bool
    ensures { result ≡ is_ended symbol.now }
{
    let mut ended = false;
    for c in symbol.chars() {
        ended = !joins_next(c as u32);
    }
    ended
}

// Whether a symbol fits, however wide a terminal draws it.
fn is_within_reach(symbol: &str, room: usize) -> bool
    requires { room < 65536 }
    ensures { result ≡ nat_le (reach symbol.now) room }
{
    let mut columns = 0usize;
    for c in symbol.chars() {
        columns = columns.saturating_add(reach_of(c));
    }
    columns <= room
}

fn reach_of(c: char) -> usize
    ensures { result ≡ reach_of c }
{
    if (c as u32) < 0x80 || c.width().unwrap_or(0) == 0 {
        1
    } else {
        2
    }
}

/// Whether two symbols are the same. Comparing strings is a call, which single bytes don't need.
#[inline]
pub(crate) fn is_same_text(one: &str, other: &str) -> bool
    ensures { result ≡ pointwise nat_eq one.now other.now }
{
    match (one.as_bytes(), other.as_bytes()) {
        ([a], [b]) => a == b,
        _ => one == other,
    }
}
