//! The direction in which the bars of a sparkline follow one another.

ghost use Rattle.std.specs.Prelude.{◌≡◌};

use std::fmt;
use std::str::FromStr;
use tui_cells::ParseError;

/// The side where the first bar of a sparkline is. `Display` writes the variant's name, and `FromStr` reads it.
#[derive(Clone, Copy, Debug, PartialEq, Eq, Hash)]
pub enum RenderDirection {
    /// The first bar is in the first column.
    LeftToRight,
    /// The first bar is in the last column.
    RightToLeft,
}

impl Default for RenderDirection {
    /// Returns `LeftToRight`.
    fn default() -> RenderDirection
        ensures { result ≡ RenderDirection.LeftToRight }
    {
        RenderDirection::LeftToRight
    }
}

impl fmt::Display for RenderDirection {
    ghost use Rattle.std.specs.Prelude.{Some};
    ghost use Rattle.tui_bars.specs.RenderDirection.{name_of};

    ghost output = { λ direction. Some (name_of direction) };

    fn fmt<W: fmt::Write>(&self, f: &mut fmt::Formatter<W>) -> fmt::Result {
        f.write_str(match self {
            RenderDirection::LeftToRight => "LeftToRight",
            RenderDirection::RightToLeft => "RightToLeft",
        })
    }
}

impl FromStr for RenderDirection {
    ghost use Rattle.tui_cells.specs.Names.{IsParsed};
    ghost use Rattle.tui_bars.specs.RenderDirection.{name_of};

    type Err = ParseError;

    ghost from_str_gives = { IsParsed name_of };

    /// Fails with `VariantNotFound` if and only if the text is not the name of a variant.
    fn from_str(text: &str) -> Result<RenderDirection, ParseError> {
        match text {
            "LeftToRight" => Ok(RenderDirection::LeftToRight),
            "RightToLeft" => Ok(RenderDirection::RightToLeft),
            _ => Err(ParseError::VariantNotFound),
        }
    }
}
