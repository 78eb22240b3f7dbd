//! When columns are reserved for a highlight symbol.

ghost use Rattle.std.specs.Prelude.{◌≡◌};
ghost use Rattle.tui_layout.specs.HighlightSpacing.{should_add};

use std::fmt;
use std::str::FromStr;
use tui_cells::ParseError;

/// When columns are reserved for a highlight symbol. `Display` writes the variant's name, and `FromStr` reads it.
#[derive(Clone, Copy, Debug, PartialEq, Eq, Hash)]
pub enum HighlightSpacing {
    /// At all times.
    Always,
    /// If something is selected.
    WhenSelected,
    /// Never. Then the symbol is not drawn either.
    Never,
}

impl HighlightSpacing {
    /// Whether the columns are reserved, given whether something is selected.
    pub fn should_add(&self, has_selection: bool) -> bool
        ensures { result ≡ should_add self.now has_selection }
    {
        match self {
            HighlightSpacing::Always => true,
            HighlightSpacing::WhenSelected => has_selection,
            HighlightSpacing::Never => false,
        }
    }
}

impl Default for HighlightSpacing {
    /// `WhenSelected`.
    fn default() -> HighlightSpacing
        ensures { result ≡ HighlightSpacing.WhenSelected }
    {
        HighlightSpacing::WhenSelected
    }
}

impl fmt::Display for HighlightSpacing {
    ghost use Rattle.std.specs.Prelude.{Some};
    ghost use Rattle.tui_layout.specs.HighlightSpacing.{name_of};

    ghost output = { λ spacing. Some (name_of spacing) };

    fn fmt<W: fmt::Write>(&self, f: &mut fmt::Formatter<W>) -> fmt::Result {
        f.write_str(match self {
            HighlightSpacing::Always => "Always",
            HighlightSpacing::WhenSelected => "WhenSelected",
            HighlightSpacing::Never => "Never",
        })
    }
}

impl FromStr for HighlightSpacing {
    ghost use Rattle.tui_cells.specs.Names.{IsParsed};
    ghost use Rattle.tui_layout.specs.HighlightSpacing.{name_of};

    type Err = ParseError;

    ghost from_str_gives = { IsParsed name_of };

    /// Fails with `VariantNotFound` exactly if the string is not the name of a variant.
    fn from_str(text: &str) -> Result<HighlightSpacing, ParseError> {
        match text {
            "Always" => Ok(HighlightSpacing::Always),
            "WhenSelected" => Ok(HighlightSpacing::WhenSelected),
            "Never" => Ok(HighlightSpacing::Never),
            _ => Err(ParseError::VariantNotFound),
        }
    }
}
