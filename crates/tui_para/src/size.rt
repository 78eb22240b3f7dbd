//! The sizes of the logo.

ghost use Rattle.std.specs.Prelude.{◌≡◌};

use std::fmt;
use std::str::FromStr;
use tui_cells::ParseError;

/// How large the logo is. `Display` writes the variant's name, and `FromStr` reads it.
#[derive(Clone, Copy, Debug, PartialEq, Eq)]
pub enum Size {
    /// 15 columns and 2 rows.
    Tiny,
    /// 27 columns and 2 rows.
    Small,
}

impl Default for Size {
    /// `Tiny`.
    fn default() -> Size
        ensures { result ≡ Size.Tiny }
    {
        Size::Tiny
    }
}

impl fmt::Display for Size {
    ghost use Rattle.std.specs.Prelude.{Some};
    ghost use Rattle.tui_para.specs.Size.{name_of};

    ghost output = { λ size. Some (name_of size) };

    fn fmt<W: fmt::Write>(&self, f: &mut fmt::Formatter<W>) -> fmt::Result {
        f.write_str(match self {
            Size::Tiny => "Tiny",
            Size::Small => "Small",
        })
    }
}

impl FromStr for Size {
    ghost use Rattle.tui_cells.specs.Names.{IsParsed};
    ghost use Rattle.tui_para.specs.Size.{name_of};

    type Err = ParseError;

    ghost from_str_gives = { IsParsed name_of };

    /// Fails with `VariantNotFound` exactly if the text is no variant's name.
    fn from_str(text: &str) -> Result<Size, ParseError> {
        match text {
            "Tiny" => Ok(Size::Tiny),
            "Small" => Ok(Size::Small),
            _ => Err(ParseError::VariantNotFound),
        }
    }
}
