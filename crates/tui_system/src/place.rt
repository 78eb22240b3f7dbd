//! Places for what a program gives at its end.

ghost use Rattle.std.specs.Prelude.{IfOk, option_map};
ghost use Rattle.tui_system.specs.Places.{IsPlaceFor, place_data};

use crate::system::System;
use tui_cells::Mem;

/// Where a program writes what it gives at its end, such as the answers of a form.
#[derive(Clone, Copy)]
pub enum Place<'n> {
    /// Standard output.
    Output,
    /// Standard error.
    Errors,
    /// The file of this name. It is created if it doesn't exist.
    File(&'n str),
}

/// Returns the place that an argument names: a file, or standard output for `-`. Without the argument it is standard
/// output if that is the user's and no terminal, or else there is none.
pub fn place_for<'n, S: System>(system: &S, argument: &'n Option<String>) -> Mem<Option<Place<'n>>>
    ensures { IfOk result (λ place. IsPlaceFor (S.gives system.now) argument.now (option_map place_data place)) }
{
    match argument {
        Some(name) if name.as_str() == "-" => Ok(Some(Place::Output)),
        Some(name) => Ok(Some(Place::File(name.as_str()))),
        None if system.is_output_piped()? => Ok(Some(Place::Output)),
        None => Ok(None),
    }
}
