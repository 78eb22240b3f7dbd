//! Fields of a form.

ghost use Rattle.std.specs.Prelude.{◌≡◌};
ghost use Rattle.tui_form_lib.specs.Field.{answer_data, answer_of, field_data, is_missing};
ghost use Rattle.tui_form_lib.specs.Value.{is_empty_value};

use crate::value::{Value, chosen_or_empty};

/// A field: the name of its answer, the label above it, whether it must be filled in, and its value.
pub struct FormField {
    pub name: String,
    pub label: String,
    pub is_needed: bool,
    pub value: Value,
}

// Written out, so that a crate that uses it needs no proof about its fields to drop it.
impl Drop for FormField {
    fn drop(self) {
        let FormField {
            name,
            label,
            is_needed,
            value,
        } = self;
    }
}

/// The answer of a field.
#[derive(Clone, Copy, Debug, PartialEq, Eq)]
pub enum Answer<'a> {
    Text(&'a str),
    Flag(bool),
}

impl FormField {
    /// Returns the text that is typed or chosen, or whether the box is checked. If nothing is chosen, the text is
    /// empty.
    pub fn answer(&self) -> Answer<'_>
        ensures { answer_data result ≡ answer_of (field_data self.now).value }
    {
        match &self.value {
            Value::Text { input, .. } => Answer::Text(input.text()),
            Value::Choice { options, chosen } => Answer::Text(chosen_or_empty(options, *chosen)),
            Value::Check(is_on) => Answer::Flag(*is_on),
        }
    }

    /// Returns whether nothing is filled in: no character is typed, nothing is chosen, or the box is not checked.
    pub fn is_empty(&self) -> bool
        ensures { result ≡ is_empty_value (field_data self.now).value }
    {
        self.value.is_empty()
    }

    /// Returns whether it is needed and not filled in.
    pub(crate) fn is_missing(&self) -> bool
        ensures { result ≡ is_missing (field_data self.now) }
    {
        self.is_needed && self.is_empty()
    }
}
