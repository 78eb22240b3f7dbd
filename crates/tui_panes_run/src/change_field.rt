//! The fields of a change.

use crate::field::PaneField;
use crate::refusal::PanesRefusal;
use tui_json::Fields;

/// A field of a change in JSON. An invalid one is reported as the field `changes` of the input.
#[derive(Clone, Copy)]
pub(crate) enum ChangeField {
    Leaf,
    Item,
}

impl Fields for ChangeField {
    ghost use Rattle.tui_panes_run.specs.Changes.{bad_change, change_key};

    type Refusal = PanesRefusal;

    ghost key = { change_key };

    ghost refusal = { λ at field. bad_change };

    fn key(&self) -> &'static str {
        match self {
            ChangeField::Leaf => "leaf",
            ChangeField::Item => "item",
        }
    }

    fn refusal(self, _at: Option<usize>) -> PanesRefusal {
        PaneField::Changes.refusal(None)
    }
}
