//! The edge at which the items of a list begin.

ghost use Rattle.std.specs.Prelude.{◌≡◌};

use std::fmt;
use std::str::FromStr;
use tui_cells::ParseError;

/// The edge at which the items of a list begin. The lines of one item go downwards in both cases. `Display` writes the
/// variant's name, and `FromStr` reads it.
#[derive(Clone, Copy, Debug, PartialEq, Eq, Hash)]
pub enum ListDirection {
    /// From the first row downwards.
    TopToBottom,
    /// From the last row upwards.
    BottomToTop,
}

impl Default for ListDirection {
    /// `TopToBottom`.
    fn default() -> ListDirection
        ensures { result ≡ ListDirection.TopToBottom }
    {
        ListDirection::TopToBottom
    }
}

impl fmt::Display for ListDirection {
    ghost use Rattle.std.specs.Prelude.{Some};
    ghost use Rattle.tui_lists.specs.ListDirection.{name_of};

    ghost output = { λ direction. Some (name_of direction) };

    fn fmt<W: fmt::Write>(&self, f: &mut fmt::Formatter<W>) -> fmt::Result {
        f.write_str(match self {
            ListDirection::TopToBottom => "TopToBottom",
            ListDirection::BottomToTop => "BottomToTop",
        })
    }
}

impl FromStr for ListDirection {
    ghost use Rattle.tui_cells.specs.Names.{IsParsed};
    ghost use Rattle.tui_lists.specs.ListDirection.{name_of};

    type Err = ParseError;

    ghost from_str_gives = { IsParsed name_of };

    /// Fails with `VariantNotFound` exactly if the text is no variant's name.
    fn from_str(text: &str) -> Result<ListDirection, ParseError> {
        match text {
            "TopToBottom" => Ok(ListDirection::TopToBottom),
            "BottomToTop" => Ok(ListDirection::BottomToTop),
            _ => Err(ParseError::VariantNotFound),
        }
    }
}
