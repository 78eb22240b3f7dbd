//! Why an input is rejected.

ghost use Rattle.tui_io.specs.Causes.{Writes};
ghost use Rattle.tui_panes_run.specs.Refusals.{refusal_line};

use crate::field::PaneField;
use tui_io::{Sink, WriteFault};
use tui_program::write_refused_in_scene;
use tui_schema::BadField;

/// Why the program rejects an input in JSON.
#[derive(Clone, Copy, Debug, PartialEq, Eq)]
pub enum PanesRefusal {
    /// A field is missing or of the wrong kind. With `pane` it is a field of the pane of this number; otherwise it is a
    /// field of the input. Panes are numbered from 0, a split before its parts, and its parts in order.
    BadPane {
        pane: Option<usize>,
        field: PaneField,
    },
    /// A field of the widget of this number is missing or of the wrong kind. The widget of a leaf has the leaf's
    /// number, from 0. The widget of a change has the number of leaves plus the index of the change, from 0.
    BadField(BadField),
}

/// Writes the line that says why the input is rejected. Fails with `WriteFault` if the sink has taken a first part of
/// the bytes, but not all of them. Does not allocate.
pub(crate) fn write_refusal<K: Sink>(refusal: PanesRefusal, sink: &mut K) -> Result<(), WriteFault>
    ensures { Writes (K.observed sink.old) (K.observed sink.new) result (refusal_line refusal) }
{
    match refusal {
        PanesRefusal::BadPane { pane, field } => write_refused_in_scene(
            "pane",
            pane,
            field.name(),
            sink,
        ),
        PanesRefusal::BadField(BadField { item, field }) => write_refused_in_scene(
            "item",
            item,
            field.name(),
            sink,
        ),
    }
}
