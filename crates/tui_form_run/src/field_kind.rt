//! Kinds of fields.

use crate::key::FormKey;
use std::str::FromStr;
use tui_cells::ParseError;
use tui_json::Named;

/// The kind of a field.
#[derive(Clone, Copy, Debug, Drop, PartialEq, Eq)]
pub enum FieldKind {
    /// A text that is typed.
    Text,
    /// One of some texts.
    Choice,
    /// A box that is checked or not.
    Check,
}

impl FromStr for FieldKind {
    ghost use Rattle.tui_cells.specs.Names.{IsParsed};
    ghost use Rattle.tui_form_run.specs.Kinds.{kind_name};

    type Err = ParseError;

    ghost from_str_gives = { IsParsed kind_name };

    /// Fails with `VariantNotFound` exactly if the text is not the name of a kind.
    fn from_str(text: &str) -> Result<FieldKind, ParseError> {
        match text {
            "text" => Ok(FieldKind::Text),
            "choice" => Ok(FieldKind::Choice),
            "check" => Ok(FieldKind::Check),
            _ => Err(ParseError::VariantNotFound),
        }
    }
}

impl Named<FormKey> for FieldKind {
    ghost use Rattle.tui_form_run.specs.Kinds.{kinds};
    ghost use Rattle.tui_json.specs.Named.{reads_named};

    ghost names = { kinds };

    ghost reads = { reads_named kinds };

    #[tactic(auto, unfolding(tui_json::specs::Named::listed_names))]
    fn listed() -> &'static str {
        "`text`, `choice` or `check`"
    }
}
