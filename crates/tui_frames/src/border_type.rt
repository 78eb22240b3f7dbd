//! Kinds of borders.

ghost use Rattle.std.specs.Prelude.{◌≡◌};
ghost use Rattle.tui_cells.specs.Symbols.{border_data};
ghost use Rattle.tui_frames.specs.BorderType.{symbols_of};

use std::fmt;
use std::str::FromStr;
use tui_cells::{ParseError, border};

/// The kinds of borders, one for each set of symbols in `border`. `Display` writes the variant's name, and `FromStr`
/// reads it.
#[derive(Clone, Copy, Debug, PartialEq, Eq, Hash)]
pub enum BorderType {
    /// Light lines.
    Plain,
    /// Light lines with rounded corners.
    Rounded,
    /// Double lines.
    Double,
    /// Heavy lines.
    Thick,
    /// Light lines of two dashes a cell.
    LightDoubleDashed,
    /// Heavy lines of two dashes a cell.
    HeavyDoubleDashed,
    /// Light lines of three dashes a cell.
    LightTripleDashed,
    /// Heavy lines of three dashes a cell.
    HeavyTripleDashed,
    /// Light lines of four dashes a cell.
    LightQuadrupleDashed,
    /// Heavy lines of four dashes a cell.
    HeavyQuadrupleDashed,
    /// Half blocks on the inner side of each cell.
    QuadrantInside,
    /// Half blocks on the outer side of each cell.
    QuadrantOutside,
}

impl BorderType {
    /// The symbols of a kind.
    pub fn border_symbols<'a>(kind: BorderType) -> border::Set<'a>
        ensures { border_data result ≡ symbols_of kind }
    {
        match kind {
            BorderType::Plain => border::PLAIN,
            BorderType::Rounded => border::ROUNDED,
            BorderType::Double => border::DOUBLE,
            BorderType::Thick => border::THICK,
            BorderType::LightDoubleDashed => border::LIGHT_DOUBLE_DASHED,
            BorderType::HeavyDoubleDashed => border::HEAVY_DOUBLE_DASHED,
            BorderType::LightTripleDashed => border::LIGHT_TRIPLE_DASHED,
            BorderType::HeavyTripleDashed => border::HEAVY_TRIPLE_DASHED,
            BorderType::LightQuadrupleDashed => border::LIGHT_QUADRUPLE_DASHED,
            BorderType::HeavyQuadrupleDashed => border::HEAVY_QUADRUPLE_DASHED,
            BorderType::QuadrantInside => border::QUADRANT_INSIDE,
            BorderType::QuadrantOutside => border::QUADRANT_OUTSIDE,
        }
    }

    /// The symbols of this kind.
    pub fn to_border_set<'a>(self) -> border::Set<'a>
        ensures { border_data result ≡ symbols_of self }
    {
        BorderType::border_symbols(self)
    }
}

impl Default for BorderType {
    /// `Plain`.
    fn default() -> BorderType
        ensures { result ≡ BorderType.Plain }
    {
        BorderType::Plain
    }
}

impl fmt::Display for BorderType {
    ghost use Rattle.std.specs.Prelude.{Some};
    ghost use Rattle.tui_frames.specs.BorderType.{name_of};

    ghost output = { λ kind. Some (name_of kind) };

    fn fmt<W: fmt::Write>(&self, f: &mut fmt::Formatter<W>) -> fmt::Result {
        f.write_str(match self {
            BorderType::Plain => "Plain",
            BorderType::Rounded => "Rounded",
            BorderType::Double => "Double",
            BorderType::Thick => "Thick",
            BorderType::LightDoubleDashed => "LightDoubleDashed",
            BorderType::HeavyDoubleDashed => "HeavyDoubleDashed",
            BorderType::LightTripleDashed => "LightTripleDashed",
            BorderType::HeavyTripleDashed => "HeavyTripleDashed",
            BorderType::LightQuadrupleDashed => "LightQuadrupleDashed",
            BorderType::HeavyQuadrupleDashed => "HeavyQuadrupleDashed",
            BorderType::QuadrantInside => "QuadrantInside",
            BorderType::QuadrantOutside => "QuadrantOutside",
        })
    }
}

impl FromStr for BorderType {
    ghost use Rattle.tui_cells.specs.Names.{IsParsed};
    ghost use Rattle.tui_frames.specs.BorderType.{name_of};

    type Err = ParseError;

    ghost from_str_gives = { IsParsed name_of };

    /// Fails with `VariantNotFound` exactly if the string is not the name of a variant.
    fn from_str(text: &str) -> Result<BorderType, ParseError> {
        match text {
            "Plain" => Ok(BorderType::Plain),
            "Rounded" => Ok(BorderType::Rounded),
            "Double" => Ok(BorderType::Double),
            "Thick" => Ok(BorderType::Thick),
            "LightDoubleDashed" => Ok(BorderType::LightDoubleDashed),
            "HeavyDoubleDashed" => Ok(BorderType::HeavyDoubleDashed),
            "LightTripleDashed" => Ok(BorderType::LightTripleDashed),
            "HeavyTripleDashed" => Ok(BorderType::HeavyTripleDashed),
            "LightQuadrupleDashed" => Ok(BorderType::LightQuadrupleDashed),
            "HeavyQuadrupleDashed" => Ok(BorderType::HeavyQuadrupleDashed),
            "QuadrantInside" => Ok(BorderType::QuadrantInside),
            "QuadrantOutside" => Ok(BorderType::QuadrantOutside),
            _ => Err(ParseError::VariantNotFound),
        }
    }
}
