//! The side of a block on which a title is placed.

ghost use Rattle.std.specs.Prelude.{◌≡◌};

use std::fmt;
use std::str::FromStr;
use tui_cells::ParseError;

/// The side of a block on which a title is placed. `Display` writes the variant's name, and `FromStr` reads it.
#[derive(Clone, Copy, Debug, PartialEq, Eq, Hash)]
pub enum TitlePosition {
    /// In the first row.
    Top,
    /// In the last row.
    Bottom,
}

impl Default for TitlePosition {
    /// `Top`.
    fn default() -> TitlePosition
        ensures { result ≡ TitlePosition.Top }
    {
        TitlePosition::Top
    }
}

impl fmt::Display for TitlePosition {
    ghost use Rattle.std.specs.Prelude.{Some};
    ghost use Rattle.tui_frames.specs.TitlePosition.{name_of};

    ghost output = { λ position. Some (name_of position) };

    fn fmt<W: fmt::Write>(&self, f: &mut fmt::Formatter<W>) -> fmt::Result {
        f.write_str(match self {
            TitlePosition::Top => "Top",
            TitlePosition::Bottom => "Bottom",
        })
    }
}

impl FromStr for TitlePosition {
    ghost use Rattle.tui_cells.specs.Names.{IsParsed};
    ghost use Rattle.tui_frames.specs.TitlePosition.{name_of};

    type Err = ParseError;

    ghost from_str_gives = { IsParsed name_of };

    /// Fails with `VariantNotFound` exactly if the string is not the name of a variant.
    fn from_str(text: &str) -> Result<TitlePosition, ParseError> {
        match text {
            "Top" => Ok(TitlePosition::Top),
            "Bottom" => Ok(TitlePosition::Bottom),
            _ => Err(ParseError::VariantNotFound),
        }
    }
}
