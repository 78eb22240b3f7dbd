//! The fields of the input.

use crate::bad_input::BadInput;
use tui_json::Fields;

/// A field of the input in JSON.
#[derive(Clone, Copy, Debug, PartialEq, Eq)]
pub enum PagerField {
    Width,
    Height,
    Entries,
    Title,
    Body,
    Keys,
}

impl PagerField {
    ghost use Rattle.std.specs.Prelude.{◌≡◌};
    ghost use Rattle.tui_pager_run.specs.Refusals.{field_name};

    /// Returns the name of the field in the input, such as `entries`.
    pub fn name(&self) -> &'static str
        ensures { result.now ≡ field_name self.now }
    {
        match self {
            PagerField::Width => "width",
            PagerField::Height => "height",
            PagerField::Entries => "entries",
            PagerField::Title => "title",
            PagerField::Body => "body",
            PagerField::Keys => "keys",
        }
    }
}

impl Fields for PagerField {
    ghost use Rattle.tui_pager_run.specs.Refusals.{bad_input, field_name};

    type Refusal = BadInput;

    ghost key = { field_name };

    ghost refusal = { bad_input };

    fn key(&self) -> &'static str {
        self.name()
    }

    fn refusal(self, at: Option<usize>) -> BadInput {
        BadInput { at, field: self }
    }
}
