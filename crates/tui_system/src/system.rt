//! What a program asks of the system that it runs on.

ghost use Rattle.std.specs.Prelude.{IfOk, string_bytes};
ghost use Rattle.tui_system.specs.System.{Given};

use std::alloc::Global;
use std::env::Args;
use std::io;
use tui_cells::Mem;
use tui_io::Source;

/// What a program asks of the system that it runs on: its arguments, the variables of its environment, and files to
/// read. Every call fails with `NoMemory` if the system is out of memory.
pub trait System {
    /// A file that was opened for reading.
    type Input: Source + Drop;

    // What the system gives, as far as that is known.
    ghost gives: { Self → Given };

    /// Returns the allocator.
    fn alloc(&self) -> Global;

    /// Returns the command-line arguments, the program's name first. It is an error if the system rejects one, because
    /// it is not UTF-8, or is out of memory.
    fn arguments(&self) -> io::Result<Args>
        ensures { (gives self.now).arguments result };

    /// Returns the text of a variable, which is empty if the variable is not set or not UTF-8.
    fn variable(&self, name: &str) -> Mem<String>
        ensures { IfOk result (λ text. (gives self.now).variable name.now (string_bytes text)) };

    /// Opens a file for reading; `-` is standard input. If it can't be opened, every read fails, and a line on standard
    /// error says why.
    fn open(&self, name: &str) -> Mem<Self::Input>
        ensures { IfOk result (λ file. (gives self.now).opened name.now (Self.Input.observed file)) };

    /// Writes a line on standard error that says what is wrong with a file: the program's name, the file's, and the text.
    /// Nothing changes if that can't be written.
    fn explain(&self, name: &str, text: &str);

    /// Whether standard output is the user's, and no terminal: a pipe, for instance, or a file.
    fn is_output_piped(&self) -> Mem<bool>
        ensures { IfOk result (gives self.now).piped };
}
