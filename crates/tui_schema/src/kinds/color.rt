//! Colours: a name, `#` and six hexadecimal digits, or an index of the palette.

ghost use Rattle.std.specs.Prelude.{◌≡◌};
ghost use Rattle.tui_schema.specs.Kinds.Color.{byte_of, color_named, color_of, color_of_hex, digit_of};

use crate::field::Field;
use serde_json::Value;
use std::alloc::Global;
use tui_cells::{Color, Mem};
use tui_json::{Explains, Fault, Kind, KindError, Wanted};

#[tactic(auto, unfolding(crate::specs::Kinds::Color::color_named, tui_cells::specs::ColorText::color_text))]
fn named_color(text: &str) -> Option<Color>
    ensures { result ≡ color_named text.now }
{
    match text {
        "reset" => Some(Color::Reset),
        "black" => Some(Color::Black),
        "red" => Some(Color::Red),
        "green" => Some(Color::Green),
        "yellow" => Some(Color::Yellow),
        "blue" => Some(Color::Blue),
        "magenta" => Some(Color::Magenta),
        "cyan" => Some(Color::Cyan),
        "gray" => Some(Color::Gray),
        "darkgray" => Some(Color::DarkGray),
        "lightred" => Some(Color::LightRed),
        "lightgreen" => Some(Color::LightGreen),
        "lightyellow" => Some(Color::LightYellow),
        "lightblue" => Some(Color::LightBlue),
        "lightmagenta" => Some(Color::LightMagenta),
        "lightcyan" => Some(Color::LightCyan),
        "white" => Some(Color::White),
        _ => None,
    }
}

fn hex_digit(byte: u8) -> Option<u8>
    ensures { result ≡ digit_of byte }
{
    match byte {
        b'0'..=b'9' => Some(byte - b'0'),
        b'a'..=b'f' => Some(byte - b'a' + 10),
        b'A'..=b'F' => Some(byte - b'A' + 10),
        _ => None,
    }
}

fn hex_byte(high: u8, low: u8) -> Option<u8>
    ensures { result ≡ byte_of high low }
{
    let high = hex_digit(high)?;
    let low = hex_digit(low)?;
    Some(16 * high + low)
}

#[tactic(auto, unfolding(crate::specs::Kinds::Color::color_of_hex))]
fn hex_color(text: &str) -> Option<Color>
    ensures { result ≡ color_of_hex text.now }
{
    match text.as_bytes() {
        [b'#', r, r2, g, g2, b, b2] => Some(Color::Rgb(
            hex_byte(*r, *r2)?,
            hex_byte(*g, *g2)?,
            hex_byte(*b, *b2)?,
        )),
        _ => None,
    }
}

impl<'v> Kind<'v, Field> for Color {
    ghost use Rattle.tui_cells.specs.declared.color.Color.{Color};

    ghost AsData = { Color };

    ghost as_data = { λ color. color };

    ghost kind = { color_of };

    #[tactic(auto, unfolding(crate::specs::Kinds::Color::color_of))]
    fn read(_alloc: Global, value: &'v Value) -> Result<Color, KindError> {
        let color = match value {
            Value::String(text) => named_color(text).or_else(|| hex_color(text)),
            Value::Number(number) => match number.as_u64() {
                Some(place) if place < 256 => Some(Color::Indexed(place as u8)),
                _ => None,
            },
            _ => None,
        };
        color.ok_or(KindError::WrongKind)
    }
}

impl<'v> Explains<'v, Field> for Color {
    ghost use Rattle.tui_json.specs.Faults.{no_parts};
    ghost use Rattle.tui_schema.specs.Faults.{a_color};

    ghost wanted = { a_color };

    ghost part_fault = { no_parts };

    fn wanted() -> Wanted<'v> {
        Wanted::Words(
            "`reset`, `black`, `red`, `green`, `yellow`, `blue`, `magenta`, `cyan`, \
             `gray`, `darkgray`, `lightred`, `lightgreen`, `lightyellow`, `lightblue`, \
             `lightmagenta`, `lightcyan`, `white`, `#` and six hexadecimal digits, or a number from 0 to 255",
        )
    }

    fn part_fault(_alloc: Global, _value: &'v Value) -> Mem<Option<Fault<'v>>> {
        Ok(None)
    }
}
