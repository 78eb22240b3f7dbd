//! The direction in which things follow one another.

use std::fmt;
use std::str::FromStr;
use tui_cells::ParseError;

/// The direction in which things follow one another. `Display` writes the variant's name, and `FromStr` reads it.
#[derive(Clone, Copy, Debug, PartialEq, Eq, Hash)]
pub enum Direction {
    /// From left to right.
    Horizontal,
    /// From top to bottom.
    Vertical,
}

impl fmt::Display for Direction {
    ghost use Rattle.std.specs.Prelude.{Some};
    ghost use Rattle.tui_layout.specs.Direction.{name_of};

    ghost output = { λ direction. Some (name_of direction) };

    fn fmt<W: fmt::Write>(&self, f: &mut fmt::Formatter<W>) -> fmt::Result {
        f.write_str(match self {
            Direction::Horizontal => "Horizontal",
            Direction::Vertical => "Vertical",
        })
    }
}

impl FromStr for Direction {
    ghost use Rattle.tui_cells.specs.Names.{IsParsed};
    ghost use Rattle.tui_layout.specs.Direction.{name_of};

    type Err = ParseError;

    ghost from_str_gives = { IsParsed name_of };

    /// Fails with `VariantNotFound` exactly if the string is not the name of a variant.
    fn from_str(text: &str) -> Result<Direction, ParseError> {
        match text {
            "Horizontal" => Ok(Direction::Horizontal),
            "Vertical" => Ok(Direction::Vertical),
            _ => Err(ParseError::VariantNotFound),
        }
    }
}
