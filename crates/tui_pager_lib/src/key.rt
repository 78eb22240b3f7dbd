//! Keys of a pager.

use std::fmt;
use std::str::FromStr;
use tui_cells::ParseError;

/// A command for a pager. At an end of the list or of the body, a key that would pass the end stops there; if the end
/// is reached already, nothing changes. `Display` writes the variant's name, and `FromStr` reads it.
#[derive(Clone, Copy, Debug, PartialEq, Eq, Hash)]
pub enum Key {
    /// Selects the entry above.
    Up,
    /// Selects the entry below.
    Down,
    /// Moves up by as many entries as the list has rows.
    PageUp,
    /// Moves down by as many entries as the list has rows.
    PageDown,
    /// Selects the first entry.
    First,
    /// Selects the last entry.
    Last,
    /// Scrolls the body up by one line.
    LineUp,
    /// Scrolls the body down by one line.
    LineDown,
    /// Shows the body from its first line on.
    BodyTop,
    /// Scrolls to the end of the body.
    BodyEnd,
}

impl fmt::Display for Key {
    ghost use Rattle.std.specs.Prelude.{Some};
    ghost use Rattle.tui_pager_lib.specs.Key.{name_of};

    ghost output = { λ key. Some (name_of key) };

    fn fmt<W: fmt::Write>(&self, f: &mut fmt::Formatter<W>) -> fmt::Result {
        f.write_str(match self {
            Key::Up => "Up",
            Key::Down => "Down",
            Key::PageUp => "PageUp",
            Key::PageDown => "PageDown",
            Key::First => "First",
            Key::Last => "Last",
            Key::LineUp => "LineUp",
            Key::LineDown => "LineDown",
            Key::BodyTop => "BodyTop",
            Key::BodyEnd => "BodyEnd",
        })
    }
}

impl FromStr for Key {
    ghost use Rattle.tui_cells.specs.Names.{IsParsed};
    ghost use Rattle.tui_pager_lib.specs.Key.{name_of};

    type Err = ParseError;

    ghost from_str_gives = { IsParsed name_of };

    /// Fails with `VariantNotFound` if and only if the text is not the name of a key.
    fn from_str(text: &str) -> Result<Key, ParseError> {
        match text {
            "Up" => Ok(Key::Up),
            "Down" => Ok(Key::Down),
            "PageUp" => Ok(Key::PageUp),
            "PageDown" => Ok(Key::PageDown),
            "First" => Ok(Key::First),
            "Last" => Ok(Key::Last),
            "LineUp" => Ok(Key::LineUp),
            "LineDown" => Ok(Key::LineDown),
            "BodyTop" => Ok(Key::BodyTop),
            "BodyEnd" => Ok(Key::BodyEnd),
            _ => Err(ParseError::VariantNotFound),
        }
    }
}
