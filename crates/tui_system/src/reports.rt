//! What programs write to standard error.

ghost use Rattle.std.specs.Prelude.{◌≡◌};
ghost use Rattle.std.specs.Process.{exit_status};
ghost use Rattle.tui_program.specs.Stops.{outcome_status};

use std::alloc::AllocGlobal;
use std::io::{Eprint, Error};
use std::process::ExitCode;
use tui_cells::Mem;
use tui_program::{Done, Outcome, Stop, exit_code};

/// Ends a program: returns its exit status. After `Usage`, writes a line on standard error that says how the program is
/// used. Nothing changes if that can't be written.
pub fn finish<D: Done, R, E: Eprint>(rt: &E, outcome: &Outcome<D, R>, usage: &str) -> ExitCode
    ensures { exit_status result ≡ outcome_status D.Done.status (λ _. 5) outcome.now }
{
    if let Err(Stop::Usage) = outcome {
        let _written = eprintln!(rt; "usage: {usage}");
    }
    exit_code(outcome)
}

/// Writes a line on standard error: the program, the name of a file, and what the system says of it. Nothing changes if
/// that can't be written. Fails with `NoMemory` if there is no memory for the line.
pub fn report<R: AllocGlobal + Eprint>(
    rt: &R,
    program: &str,
    name: &str,
    error: &Error,
) -> Mem<()> {
    let text = format!(in rt.alloc(); "{error}")?;
    print_reason(rt, program, name, reason_in(text.as_str()));
    Ok(())
}

/// Returns what the system says without its number.
fn reason_in(text: &str) -> &str {
    match text.split_once(" (os error ") {
        Some(parts) => parts.0,
        None => text,
    }
}

/// Writes a line on standard error. Nothing changes if that can't be written.
pub(crate) fn print_reason<R: Eprint>(rt: &R, program: &str, name: &str, reason: &str) {
    let _written = eprintln!(rt; "{program}: {name}: {reason}");
}
