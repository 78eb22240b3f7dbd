//! Directions of scrolling.

ghost use Rattle.std.specs.Prelude.{◌≡◌};

use std::fmt;
use std::str::FromStr;
use tui_cells::ParseError;

/// The direction in which to scroll. `Display` writes the variant's name, and `FromStr` reads it.
#[derive(Clone, Copy, Debug, PartialEq, Eq, Hash)]
pub enum ScrollDirection {
    /// Towards the end of the content.
    Forward,
    /// Towards its beginning.
    Backward,
}

impl Default for ScrollDirection {
    /// `Forward`.
    fn default() -> ScrollDirection
        ensures { result ≡ ScrollDirection.Forward }
    {
        ScrollDirection::Forward
    }
}

impl fmt::Display for ScrollDirection {
    ghost use Rattle.std.specs.Prelude.{Some};
    ghost use Rattle.tui_lists.specs.ScrollDirection.{name_of};

    ghost output = { λ direction. Some (name_of direction) };

    fn fmt<W: fmt::Write>(&self, f: &mut fmt::Formatter<W>) -> fmt::Result {
        f.write_str(match self {
            ScrollDirection::Forward => "Forward",
            ScrollDirection::Backward => "Backward",
        })
    }
}

impl FromStr for ScrollDirection {
    ghost use Rattle.tui_cells.specs.Names.{IsParsed};
    ghost use Rattle.tui_lists.specs.ScrollDirection.{name_of};

    type Err = ParseError;

    ghost from_str_gives = { IsParsed name_of };

    /// Fails with `VariantNotFound` exactly if the text is no variant's name.
    fn from_str(text: &str) -> Result<ScrollDirection, ParseError> {
        match text {
            "Forward" => Ok(ScrollDirection::Forward),
            "Backward" => Ok(ScrollDirection::Backward),
            _ => Err(ParseError::VariantNotFound),
        }
    }
}
