//! The value of a field of a form.

ghost use Rattle.std.specs.Option.{option_copied, option_or};
ghost use Rattle.std.specs.Prelude.{◌≡◌, [], IfOk, OnErr, OnOk, if◌then◌else◌, is_some, map, not, string_bytes, unwrap_or};
ghost use Rattle.tui_form_lib.specs.Value.{chosen_by, chosen_text, is_blank, is_empty_value, value_after, value_data, value_takes};

use crate::indices::{place_after, place_before};
use tui_cells::Mem;
use tui_input::InputState;
use tui_keys::Event;

/// The kind of a field, and its value.
pub enum Value {
    /// A text that is typed. If it is masked, a `*` is shown for each grapheme.
    Text {
        input: InputState,
        is_masked: bool,
    },
    /// One of some texts, by its index. Nothing is chosen if there is no index, or one past the texts.
    Choice {
        options: Vec<String>,
        chosen: Option<usize>,
    },
    /// A box that is checked or not.
    Check(bool),
}

// Written out, so that a crate that uses it needs no proof about its fields to drop it.
impl Drop for Value {
    fn drop(self) {
        match self {
            Value::Text { input, is_masked } => {}
            Value::Choice { options, chosen } => {}
            Value::Check(is_on) => {}
        }
    }
}

impl Value {
    /// Returns whether nothing is filled in: no character is typed, nothing is chosen, or the box is not checked.
    pub(crate) fn is_empty(&self) -> bool
        ensures { result ≡ is_empty_value (value_data self.now) }
    {
        match self {
            Value::Text { input, .. } => input.is_empty(),
            Value::Choice { options, chosen } => chosen_text(options, *chosen).is_none(),
            Value::Check(is_on) => !*is_on,
        }
    }

    /// Takes an event, and returns whether the value uses it. A text uses what `InputState::take` uses. In a choice,
    /// Left and Right choose the text before and after, and wrap around. Home and End choose the first and the last
    /// text, and the space bar the next one. The space bar also checks and unchecks a box. If it fails with `NoMemory`,
    /// nothing has changed.
    pub(crate) fn take(&mut self, event: Event) -> Mem<bool>
        ensures ok { OnOk result (value_data self.new ≡ value_after (value_data self.old) event) }
        ensures takes { IfOk result (λ takes. takes ≡ value_takes (value_data self.old) event) }
        ensures err { OnErr result (value_data self.new ≡ value_data self.old) }
    {
        match self {
            Value::Text { input, .. } => input.take(event),
            Value::Choice { options, chosen } => Ok(choose(options.len(), chosen, event)),
            Value::Check(is_on) => Ok(turn(is_on, event)),
        }
    }
}

/// Returns the chosen text.
pub(crate) fn chosen_text(texts: &[String], chosen: Option<usize>) -> Option<&str>
    ensures { option_copied result ≡ chosen_text (map string_bytes texts.now) chosen }
{
    let place = chosen?;
    if place < texts.len() {
        Some(texts[place].as_str())
    } else {
        None
    }
}

/// Returns the chosen text, or the empty text if nothing is chosen.
pub(crate) fn chosen_or_empty(texts: &[String], chosen: Option<usize>) -> &str
    ensures { result.now ≡ unwrap_or (chosen_text (map string_bytes texts.now) chosen) [] }
{
    match chosen_text(texts, chosen) {
        Some(text) => text,
        None => "",
    }
}

/// Returns the index below `count` that an event chooses, if it chooses one.
fn chosen_by(count: usize, chosen: Option<usize>, event: Event) -> Option<usize>
    ensures { result ≡ chosen_by count chosen event }
{
    match event {
        Event::Left => Some(place_before(count, chosen)),
        Event::Right | Event::Char(' ') => Some(place_after(count, chosen)),
        Event::Home => Some(0),
        Event::End => Some(count.saturating_sub(1)),
        _ => None,
    }
}

/// Chooses what an event chooses, and returns whether it chooses anything.
fn choose(count: usize, chosen: &mut Option<usize>, event: Event) -> bool
    ensures chooses { chosen.new ≡ option_or (chosen_by count chosen.old event) chosen.old }
    ensures takes { result ≡ is_some (chosen_by count chosen.old event) }
{
    match chosen_by(count, *chosen, event) {
        Some(place) => {
            *chosen = Some(place);
            true
        }
        None => false,
    }
}

fn is_blank(event: Event) -> bool
    ensures { result ≡ is_blank event }
{
    event == Event::Char(' ')
}

/// Checks or unchecks a box if the event is a space, and returns whether it is one.
fn turn(is_on: &mut bool, event: Event) -> bool
    ensures turns { is_on.new ≡ (if is_blank event then not is_on.old else is_on.old) }
    ensures takes { result ≡ is_blank event }
{
    let turns = is_blank(event);
    if turns {
        *is_on = !*is_on;
    }
    turns
}
