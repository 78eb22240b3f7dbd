//! Results of system calls, with running out of memory as an error of its own.

ghost use Rattle.std.specs.Prelude.{◌≡◌, ◌↔◌, Err, IfOk, IsErr, string_bytes};
ghost use Rattle.std.specs.declared.env.VarError.TheVariants.{OutOfMemory};
ghost use Rattle.tui_system.specs.Answers.{IsOutOfMemory, variable_text};

use std::alloc::Global;
use std::env::VarError;
use std::io;
use std::io::ErrorKind;
use tui_cells::{Mem, NoMemory};

/// Returns a system call's result as it is. Fails with `NoMemory` if the system reported that it is out of memory.
pub fn or_out_of_memory<T: Drop>(answer: io::Result<T>) -> Mem<io::Result<T>>
    ensures same { IfOk result (λ same. same ≡ answer) }
    ensures out_of_memory { IsErr result ↔ IsOutOfMemory answer }
{
    match answer {
        Err(error) if error.kind() == ErrorKind::OutOfMemory => Err(NoMemory),
        answer => Ok(answer),
    }
}

/// Returns the value of a variable, or an empty string if it has none. Fails with `NoMemory` if the system was out of
/// memory.
pub(crate) fn text_of(alloc: Global, value: Result<String, VarError>) -> Mem<String>
    ensures text { IfOk result (λ text. string_bytes text ≡ variable_text value) }
    ensures out_of_memory { IsErr result ↔ (value ≡ Err OutOfMemory) }
{
    match value {
        Ok(text) => Ok(text),
        Err(VarError::OutOfMemory) => Err(NoMemory),
        Err(_) => Ok(String::new(alloc)),
    }
}
