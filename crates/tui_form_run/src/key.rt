//! The keys of the JSON of a form.

use crate::bad_form::BadForm;
use tui_json::Fields;

/// A key of the JSON of a form.
#[derive(Clone, Copy, Debug, PartialEq, Eq)]
pub enum FormKey {
    Title,
    Fields,
    Name,
    Label,
    Kind,
    Most,
    Mask,
    Of,
    Needed,
    Value,
}

impl FormKey {
    ghost use Rattle.std.specs.Prelude.{◌≡◌};
    ghost use Rattle.tui_form_run.specs.Refusals.{key_name};

    /// Returns its name in the JSON, such as `fields`.
    pub fn name(&self) -> &'static str
        ensures { result.now ≡ key_name self.now }
    {
        match self {
            FormKey::Title => "title",
            FormKey::Fields => "fields",
            FormKey::Name => "name",
            FormKey::Label => "label",
            FormKey::Kind => "kind",
            FormKey::Most => "most",
            FormKey::Mask => "mask",
            FormKey::Of => "of",
            FormKey::Needed => "needed",
            FormKey::Value => "value",
        }
    }
}

impl Fields for FormKey {
    ghost use Rattle.tui_form_run.specs.Refusals.{bad_form, key_name};

    type Refusal = BadForm;

    ghost key = { key_name };

    ghost refusal = { bad_form };

    fn key(&self) -> &'static str {
        self.name()
    }

    fn refusal(self, at: Option<usize>) -> BadForm {
        BadForm { at, key: self }
    }
}
