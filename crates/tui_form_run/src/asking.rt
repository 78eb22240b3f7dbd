//! From the arguments and a form to a session, and to the answers.

ghost use Rattle.std.specs.Prelude.{◌≡◌, OnErr};
ghost use Rattle.tui_form_lib.specs.Form.{form_data};
ghost use Rattle.tui_form_run.specs.Asked.{asked_data, form_reader};
ghost use Rattle.tui_form_run.specs.Ends.{EndsAccepted, EndsAnswering, EndsWithForm};
ghost use Rattle.tui_program.specs.Input.{Reaches};
ghost use Rattle.tui_system.specs.Commands.{ComesTo};
ghost use Rattle.tui_system.specs.Destination.{IsOpened};

use crate::answers::write_answers_line;
use crate::asked_form::{AskedForm, read_form};
use crate::bad_form::BadForm;
use crate::form_left::{FormLeft, left_as};
use crate::session::show_form;
use std::alloc::Global;
use tui_app::{AppEnd, Terminal};
use tui_form_lib::Form;
use tui_io::Failed;
use tui_program::{Outcome, Stop};
use tui_system::{Destination, Place, System, place_for, setting};

/// Asks the user with the form that the arguments name. If the run is stopped before, nothing is written to the terminal
/// or as answers.
pub(crate) fn ask_by_file<S: System, T: Terminal, A: Destination>(
    system: &S,
    terminal: &mut T,
    answers: &mut A,
) -> Outcome<Outcome<FormLeft, BadForm>, BadForm>
    ensures asked { Reaches (ComesTo (S.gives system.now) form_reader)
        (λ asked. EndsWithForm (S.gives system.now) (T.observed terminal.old) (T.observed terminal.new) (A.Sink.observed answers.old) (A.Sink.observed answers.new)
        (λ place. IsOpened A.Sink.observed A.Destination.is_open_at place (A.Sink.observed answers.old)) asked) result }
    ensures terminal { OnErr result (T.observed terminal.new ≡ T.observed terminal.old) }
    ensures answers { OnErr result (answers.new ≡ answers.old) }
{
    let asked = read_form(system)?;
    Ok(ask(system, asked, terminal, answers))
}

/// Opens the destination of the answers, shows the form, and writes the answers. If the destination can't be opened, the
/// terminal is not entered.
fn ask<S: System, T: Terminal, A: Destination>(
    system: &S,
    asked: AskedForm,
    terminal: &mut T,
    answers: &mut A,
) -> Outcome<FormLeft, BadForm>
    ensures { EndsWithForm (S.gives system.now) (T.observed terminal.old) (T.observed terminal.new) (A.Sink.observed answers.old) (A.Sink.observed answers.new)
        (λ place. IsOpened A.Sink.observed A.Destination.is_open_at place (A.Sink.observed answers.old)) (asked_data asked) result }
{
    let AskedForm { files, form } = asked;
    let mut form = form;
    let setting = setting(system)?;
    let place = place_for(system, &files.answers)?.unwrap_or(Place::Errors);
    match answers.open(place)? {
        Ok(()) => {
            let end = show_form(system.alloc(), setting, &mut form, terminal);
            answer(system.alloc(), &form, end, answers)
        }
        Err(Failed) => Err(Stop::WriteFault),
    }
}

/// Writes the answers of a form, if it was accepted.
fn answer<A: Destination>(
    alloc: Global,
    form: &Form,
    end: AppEnd,
    answers: &mut A,
) -> Outcome<FormLeft, BadForm>
    ensures { EndsAnswering (form_data form.now) end (A.observed answers.old) (A.observed answers.new) result }
{
    match left_as(end, form.outcome()) {
        Ok(FormLeft::Accepted) => accept(alloc, form, answers),
        left => left,
    }
}

fn accept<A: Destination>(alloc: Global, form: &Form, answers: &mut A) -> Outcome<FormLeft, BadForm>
    ensures { EndsAccepted (form_data form.now).fields (A.observed answers.old) (A.observed answers.new) result }
{
    write_answers_line(alloc, form.fields(), answers)?;
    Ok(FormLeft::Accepted)
}
