//! The app.

ghost use Rattle.std.specs.Prelude.{◌≡◌, IfOk, OnOk, map, string_bytes};
ghost use Rattle.tui_form_lib.specs.Field.{field_data};
ghost use Rattle.tui_form_lib.specs.Form.{form_data, new_form};

use crate::field::FormField;
use std::alloc::Global;
use tui_app::{App, Flow};
use tui_cells::{Buffer, Mem, Position};
use tui_keys::Event;

/// The state of a form.
#[derive(Clone, Copy, Debug, PartialEq, Eq)]
pub enum Outcome {
    /// It is being filled in.
    Open,
    /// The user accepted it with Enter: each field that is needed is filled in.
    Accepted,
    /// The user left it without an answer.
    Left,
}

/// Fields one below the other, one of which has the focus.
pub struct Form {
    pub(crate) title: String,
    pub(crate) fields: Vec<FormField>,
    /// The index of the field that events go to.
    pub(crate) focus: usize,
    /// The first field that the last drawing has shown.
    pub(crate) offset: usize,
    /// The field that is marked as needed.
    pub(crate) reported: Option<usize>,
    /// Whether the last key was Esc.
    pub(crate) is_escaped: bool,
    /// Whether a paste is being ignored.
    pub(crate) is_skipping: bool,
    pub(crate) outcome: Outcome,
}

// Written out, so that a crate that uses it needs no proof about its fields to drop it.
impl Drop for Form {
    fn drop(self) {
        let Form {
            title,
            fields,
            focus,
            offset,
            reported,
            is_escaped,
            is_skipping,
            outcome,
        } = self;
    }
}

impl Form {
    /// Returns an open form of these fields, with the focus on the first one.
    pub fn new(title: String, fields: Vec<FormField>) -> Form
        ensures { form_data result ≡ new_form (string_bytes title) (map field_data fields.items) }
    {
        Form {
            title,
            fields,
            focus: 0,
            offset: 0,
            reported: None,
            is_escaped: false,
            is_skipping: false,
            outcome: Outcome::Open,
        }
    }

    /// Returns the fields, in order.
    pub fn fields(&self) -> &[FormField]
        ensures { map field_data result.now ≡ (form_data self.now).fields }
    {
        &self.fields
    }

    /// Returns whether the form is open, accepted or left.
    pub fn outcome(&self) -> Outcome
        ensures { result ≡ (form_data self.now).outcome }
    {
        self.outcome
    }
}

impl App for Form {
    ghost use Rattle.tui_form_lib.specs.Laws.{form_behaviour};

    ghost behaviour = { form_behaviour };

    fn step(&mut self, _alloc: Global, event: Event) -> Mem<Flow> {
        self.take(event)
    }

    fn draw(&mut self, alloc: Global, buf: &mut Buffer) -> Mem<Option<Position>> {
        self.draw_form(alloc, buf)
    }
}
