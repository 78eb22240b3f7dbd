//! Where columns are placed if they leave a rest.

ghost use Rattle.std.specs.Prelude.{◌≡◌};

use std::fmt;
use std::str::FromStr;
use tui_cells::ParseError;

/// Where columns are placed if they leave a rest of their length that neither a `Fill` nor a `Min` shares. `Display`
/// writes the variant's name, and `FromStr` reads it.
#[derive(Clone, Copy, Debug, PartialEq, Eq, Hash)]
pub enum Flex {
    /// At the start. The last column gets the rest.
    Legacy,
    /// At the start.
    Start,
    /// At the end.
    End,
    /// In the middle, with half of the rest before them, rounded down.
    Center,
    /// With the rest in equal parts between them.
    SpaceBetween,
    /// With the rest in equal parts between them, before the first and after the last.
    SpaceEvenly,
    /// With the rest in equal parts on both sides of each column.
    SpaceAround,
}

impl Default for Flex {
    /// `Start`.
    fn default() -> Flex
        ensures { result ≡ Flex.Start }
    {
        Flex::Start
    }
}

impl fmt::Display for Flex {
    ghost use Rattle.std.specs.Prelude.{Some};
    ghost use Rattle.tui_layout.specs.Flex.{name_of};

    ghost output = { λ flex. Some (name_of flex) };

    fn fmt<W: fmt::Write>(&self, f: &mut fmt::Formatter<W>) -> fmt::Result {
        f.write_str(match self {
            Flex::Legacy => "Legacy",
            Flex::Start => "Start",
            Flex::End => "End",
            Flex::Center => "Center",
            Flex::SpaceBetween => "SpaceBetween",
            Flex::SpaceEvenly => "SpaceEvenly",
            Flex::SpaceAround => "SpaceAround",
        })
    }
}

impl FromStr for Flex {
    ghost use Rattle.tui_cells.specs.Names.{IsParsed};
    ghost use Rattle.tui_layout.specs.Flex.{name_of};

    type Err = ParseError;

    ghost from_str_gives = { IsParsed name_of };

    /// Fails with `VariantNotFound` exactly if the string is not the name of a variant.
    fn from_str(text: &str) -> Result<Flex, ParseError> {
        match text {
            "Legacy" => Ok(Flex::Legacy),
            "Start" => Ok(Flex::Start),
            "End" => Ok(Flex::End),
            "Center" => Ok(Flex::Center),
            "SpaceBetween" => Ok(Flex::SpaceBetween),
            "SpaceEvenly" => Ok(Flex::SpaceEvenly),
            "SpaceAround" => Ok(Flex::SpaceAround),
            _ => Err(ParseError::VariantNotFound),
        }
    }
}
