//! The fields of the input and of its panes.

use crate::refusal::PanesRefusal;
use tui_json::Fields;

/// A field of the input or of a pane in JSON.
#[derive(Clone, Copy, Debug, PartialEq, Eq)]
pub enum PaneField {
    Width,
    Height,
    Root,
    Changes,
    Direction,
    Spacing,
    Flex,
    Parts,
    Size,
    Item,
}

impl PaneField {
    ghost use Rattle.std.specs.Prelude.{◌≡◌};
    ghost use Rattle.tui_panes_run.specs.Refusals.{field_name};

    /// Returns its name in the input, such as `parts`.
    pub fn name(&self) -> &'static str
        ensures { result.now ≡ field_name self.now }
    {
        match self {
            PaneField::Width => "width",
            PaneField::Height => "height",
            PaneField::Root => "root",
            PaneField::Changes => "changes",
            PaneField::Direction => "direction",
            PaneField::Spacing => "spacing",
            PaneField::Flex => "flex",
            PaneField::Parts => "parts",
            PaneField::Size => "size",
            PaneField::Item => "item",
        }
    }
}

impl Fields for PaneField {
    ghost use Rattle.tui_panes_run.specs.Refusals.{bad_pane, field_name};

    type Refusal = PanesRefusal;

    ghost key = { field_name };

    ghost refusal = { bad_pane };

    fn key(&self) -> &'static str {
        self.name()
    }

    fn refusal(self, at: Option<usize>) -> PanesRefusal {
        PanesRefusal::BadPane {
            pane: at,
            field: self,
        }
    }
}
