//! What an event asks a form to do.

ghost use Rattle.std.specs.Prelude.{◌≡◌};
ghost use Rattle.tui_form_lib.specs.FormAction.{action, ctrl_action};

use tui_keys::Event;

/// What an event asks for that the focused field does not use.
#[derive(Clone, Copy, Debug, PartialEq, Eq)]
pub(crate) enum FormAction {
    Nothing,
    /// Moves the focus to the next field.
    Next,
    /// Moves the focus to the previous field.
    Previous,
    /// Accepts the form.
    Accept,
    /// Leaves the form without an answer.
    Leave,
    /// Sends the whole screen again.
    Redraw,
    /// Ignores the paste that begins.
    Skip,
}

/// Returns what an event asks for. Esc leaves the form if the key before it was Esc too.
pub(crate) fn action_for(event: Event, is_escaped: bool) -> FormAction
    ensures { result ≡ action is_escaped event }
{
    match event {
        Event::Tab | Event::Down => FormAction::Next,
        Event::BackTab | Event::Up => FormAction::Previous,
        Event::Enter => FormAction::Accept,
        Event::Esc => {
            if is_escaped {
                FormAction::Leave
            } else {
                FormAction::Nothing
            }
        }
        Event::Ctrl(character) => ctrl_action(character),
        Event::PasteBegin => FormAction::Skip,
        _ => FormAction::Nothing,
    }
}

/// Ctrl-C leaves the form, and Ctrl-L sends the whole screen again.
fn ctrl_action(character: char) -> FormAction
    ensures { result ≡ ctrl_action character }
{
    match character {
        'c' => FormAction::Leave,
        'l' => FormAction::Redraw,
        _ => FormAction::Nothing,
    }
}
