//! The formats of a file.

use tui_io::{Sink, WriteFault};
use tui_pager_run::BadInput;
use tui_program::{Rejects, write_refused_field};

/// The format of a file.
#[derive(Clone, Copy, Debug, PartialEq, Eq)]
pub enum Format {
    /// Entries in JSON.
    Entries,
    /// Text, whose pieces are the entries.
    Text,
}

/// A file of entries is rejected as `tui_pager` rejects its input.
impl Rejects for Format {
    ghost use Rattle.tui_pager_run.specs.Refusals.{refusal_line};

    type Refusal = BadInput;

    ghost line = { refusal_line };

    fn reject<K: Sink>(refusal: BadInput, sink: &mut K) -> Result<(), WriteFault> {
        write_refused_field(refusal.field.name(), refusal.at, sink)
    }
}
