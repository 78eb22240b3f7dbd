//! How events change a form.

ghost use Rattle.std.specs.Prelude.{◌≡◌, IfOk, OnOk, if◌then◌else◌, map};
ghost use Rattle.tui_form_lib.specs.Field.{field_data};
ghost use Rattle.tui_form_lib.specs.Form.{form_data};
ghost use Rattle.tui_form_lib.specs.Steps.{
  accepting,
  after_event,
  escaped_after,
  first_missing,
  flow_after,
  flow_for,
  performed,
  skipped,
  still_reported,
  taken,
  takes,
};

use crate::actions::{FormAction, action_for};
use crate::field::FormField;
use crate::form::{Form, Outcome};
use crate::indices::{place_after, place_before};
use tui_app::Flow;
use tui_cells::Mem;
use tui_keys::Event;

impl Form {
    /// Takes an event, and returns how the session goes on. Ignores a paste that no text takes. The focused field is
    /// offered any other event first.
    pub(crate) fn take(&mut self, event: Event) -> Mem<Flow>
        ensures after { OnOk result (form_data self.new ≡ after_event (form_data self.old) event) }
        ensures flow { IfOk result (λ flow. flow ≡ flow_after (form_data self.old) event) }
    {
        let is_escaped = escaped_after(self.is_escaped, event);
        let flow = self.handle(event)?;
        self.is_escaped = is_escaped;
        Ok(flow)
    }

    fn handle(&mut self, event: Event) -> Mem<Flow>
        ensures after { let f = form_data self.old in
            OnOk result (record (form_data self.new) { is_escaped = escaped_after f.is_escaped event } ≡ after_event f event) }
        ensures flow { IfOk result (λ flow. flow ≡ flow_after (form_data self.old) event) }
    {
        if self.is_skipping {
            self.skip(event);
            return Ok(Flow::Go);
        }
        if self.offer(event)? {
            return Ok(Flow::Go);
        }
        Ok(self.perform(action_for(event, self.is_escaped)))
    }

    /// Ignores what is pasted, up to its end.
    fn skip(&mut self, event: Event)
        ensures { form_data self.new ≡ skipped (form_data self.old) event }
    {
        if event == Event::PasteEnd {
            self.is_skipping = false;
        }
    }

    /// Offers an event to the focused field, and returns whether the field has used it.
    fn offer(&mut self, event: Event) -> Mem<bool>
        ensures taken { IfOk result (λ is_taken. form_data self.new ≡ (if is_taken then taken (form_data self.old) event else form_data self.old)) }
        ensures takes { IfOk result (λ is_taken. is_taken ≡ takes (form_data self.old) event) }
    {
        if self.focus >= self.fields.len() {
            return Ok(false);
        }
        if !self.fields[self.focus].value.take(event)? {
            return Ok(false);
        }
        self.reported = still_reported(&self.fields, self.reported);
        Ok(true)
    }

    /// Performs an action, and returns how the session goes on.
    fn perform(&mut self, action: FormAction) -> Flow
        ensures after { form_data self.new ≡ performed (form_data self.old) action }
        ensures flow { result ≡ flow_for (form_data self.old) action }
    {
        match action {
            FormAction::Nothing => Flow::Go,
            FormAction::Redraw => Flow::Redraw,
            FormAction::Next => {
                self.focus = place_after(self.fields.len(), Some(self.focus));
                Flow::Go
            }
            FormAction::Previous => {
                self.focus = place_before(self.fields.len(), Some(self.focus));
                Flow::Go
            }
            FormAction::Accept => self.accept(),
            FormAction::Leave => {
                self.outcome = Outcome::Left;
                Flow::Quit
            }
            FormAction::Skip => {
                self.is_skipping = true;
                Flow::Go
            }
        }
    }

    /// Accepts the form, unless a needed field is empty. Then the first such field gets the focus and is marked as
    /// needed.
    fn accept(&mut self) -> Flow
        ensures after { form_data self.new ≡ accepting (form_data self.old) (first_missing (form_data self.old).fields) }
        ensures flow { result ≡ flow_for (form_data self.old) FormAction.Accept }
    {
        match first_missing(&self.fields) {
            Some(place) => {
                self.focus = place;
                self.reported = Some(place);
                Flow::Go
            }
            None => {
                self.outcome = Outcome::Accepted;
                Flow::Quit
            }
        }
    }
}

/// Returns the first field that is needed and empty.
fn first_missing(fields: &[FormField]) -> Option<usize>
    ensures { result ≡ first_missing (map field_data fields.now) }
{
    for place in 0..fields.len() {
        if fields[place].is_missing() {
            return Some(place);
        }
    }
    None
}

/// Returns the field that is marked as needed, as long as it is empty.
fn still_reported(fields: &[FormField], reported: Option<usize>) -> Option<usize>
    ensures { result ≡ still_reported (map field_data fields.now) reported }
{
    let place = reported?;
    if place < fields.len() && fields[place].is_empty() {
        Some(place)
    } else {
        None
    }
}

/// Returns whether Esc is the last key after an event. A tick and a new size are not keys.
fn escaped_after(is_escaped: bool, event: Event) -> bool
    ensures { result ≡ escaped_after is_escaped event }
{
    match event {
        Event::Esc => true,
        Event::Tick | Event::Resize(_, _) => is_escaped,
        _ => false,
    }
}
