//! What holds for every session of a form, and for `==` and clones of its values.

ghost use Rattle.std.specs.Prelude.{◌≡◌, true};
ghost use Rattle.tui_form_lib.specs.Laws.{FormIsShown};
ghost use Rattle.tui_form_lib.specs.declared.field.Answer.{Answer};
ghost use Rattle.tui_form_lib.specs.declared.form.Outcome.{Outcome};

use crate::field::Answer;
use crate::form::{Form, Outcome};
use tui_app_laws::waiting_law;
use tui_terminal_model::Output;

/// While a session waits for input, any terminal that has read the output shows the form's screen, whatever it showed
/// before. That is the screen of the form that all events led to. If it has room, it shows the fields in a list, and
/// draws the focused field in full. The cursor of a focused text is in its row. A screen without room shows `too
/// small`.
pub fn form_law(output: Output)
    ensures { FormIsShown output }
{
    waiting_law::<Form>(output);
}

/// Outcomes that are equal by `==` are the same, and a clone of one is the value. A clone of an answer is the value
/// too.
pub fn outcome_laws<'a>()
    ensures outcome { (a b : Outcome) → ⟦<Outcome as PartialEq>⟧.eq a b ≡ true → a ≡ b }
    ensures outcome_clone { (a b : Outcome) → ⟦<Outcome as Clone>⟧.is_clone a b → b ≡ a }
    ensures answer_clone { (a b : Answer) → ⟦<Answer<'a> as Clone>⟧.is_clone a b → b ≡ a }
{}
