//! A whole run, from the arguments, the form and the keys to what the terminal is sent, and to the answers.

ghost use Rattle.tui_form_run.specs.Ends.{Ends, EndsOn};
ghost use Rattle.tui_system.specs.Destination.{IsOpened};
ghost use Rattle.tui_system.specs.Opening.{CanBeOpen};

use crate::asking::ask_by_file;
use crate::bad_form::BadForm;
use crate::form_command::FormCommand;
use crate::form_left::FormLeft;
use tui_app::Terminal;
use tui_program::{Outcome, report_stop};
use tui_system::{Console, Destination, System, open_terminal};

/// Reads a form in JSON (docs/PROGRAMS.md) to its end, and shows it on the terminal until the user accepts or leaves
/// it. Then it leaves the terminal, and writes the answers of an accepted form to `answers`. The arguments are FORM, or
/// FORM and ANSWERS. The terminal is opened first; if it can't be opened, the run ends with `WriteFault`, and nothing is
/// read or created. Invalid input is rejected in one line before the terminal is entered. The destination that ANSWERS
/// names is open before the terminal is entered; if it can't be opened, the run ends with `WriteFault`, and the terminal
/// is not entered. `Stop` lists the causes of the other outcomes.
pub fn run_form<S: System, T: Console, A: Destination>(
    system: &S,
    terminal: &mut T,
    answers: &mut A,
) -> Outcome<FormLeft, BadForm>
    ensures { Ends (S.gives system.now) (CanBeOpen T.observed T.is_open (T.observed terminal.old))
        (T.observed terminal.old) (T.observed terminal.new) (A.Sink.observed answers.old) (A.Sink.observed answers.new)
        (λ place. IsOpened A.Sink.observed A.Destination.is_open_at place (A.Sink.observed answers.old)) result }
{
    open_terminal::<BadForm, T>(terminal)?;
    run_on(system, terminal, answers)
}

/// Asks on a terminal that is open.
fn run_on<S: System, T: Terminal, A: Destination>(
    system: &S,
    terminal: &mut T,
    answers: &mut A,
) -> Outcome<FormLeft, BadForm>
    ensures { EndsOn (S.gives system.now) (T.observed terminal.old) (T.observed terminal.new) (A.Sink.observed answers.old) (A.Sink.observed answers.new)
        (λ place. IsOpened A.Sink.observed A.Destination.is_open_at place (A.Sink.observed answers.old)) result }
{
    match ask_by_file(system, terminal, answers) {
        Ok(outcome) => outcome,
        Err(stop) => Err(report_stop::<FormCommand, T>(stop, terminal)),
    }
}
