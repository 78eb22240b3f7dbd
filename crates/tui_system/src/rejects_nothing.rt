//! Programs that reject no value.

use tui_io::{Sink, WriteFault};
use tui_program::Rejects;

/// What a program rejects that reads no value: nothing.
pub struct RejectsNothing;

impl Rejects for RejectsNothing {
    ghost use Rattle.tui_system.specs.RejectsNothing.{no_line};

    type Refusal = ();

    ghost line = { no_line };

    fn reject<K: Sink>(_refusal: (), _sink: &mut K) -> Result<(), WriteFault> {
        Ok(())
    }
}
