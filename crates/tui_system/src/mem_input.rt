//! What a system in memory opens.

ghost use Rattle.std.specs.Io.{ReadsAtMost};
ghost use Rattle.std.specs.Io.KnownBytes.{ReadConsumes};
ghost use Rattle.tui_io.specs.Causes.{HasCause};
ghost use Rattle.tui_system.specs.MemSystem.{ReadsInput, input_observed};

use tui_io::{Failed, MemSource, Source};

/// What a system in memory opens by a name.
#[derive(Drop)]
pub enum MemInput {
    /// The file of this name.
    Found(MemSource),
    /// No file has this name: every read fails. Holds the number of failed reads, which saturates.
    Missing(u64),
}

impl Source for MemInput {
    ghost use Rattle.tui_system.specs.MemSystem.{input_observed};

    ghost observed = { input_observed };

    fn read(&mut self, into: &mut [u8]) -> Result<usize, Failed>
        ensures bound { ReadsAtMost result into.new }
        ensures bytes { ReadConsumes (input_observed self.old).bytes (input_observed self.new).bytes result into.new }
        ensures cause { HasCause (input_observed self.old).io_errors (input_observed self.new).io_errors result }
        ensures exactly { ReadsInput self.old self.new into.new result }
    {
        match self {
            MemInput::Found(file) => file.read(into),
            MemInput::Missing(io_errors) => {
                *io_errors = io_errors.saturating_add(1);
                Err(Failed)
            }
        }
    }
}
