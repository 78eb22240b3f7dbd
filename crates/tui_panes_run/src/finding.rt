//! Which leaf is at a position, and the line that says so.

ghost use Rattle.tui_io.specs.Causes.{Writes};
ghost use Rattle.tui_panes_run.specs.Found.{IsLeafAt, leaf_line};

use tui_cells::Position;
use tui_io::{Print, Sink, WriteFault, write_all};
use tui_panes_lib::Panes;

/// Returns the number of the leaf whose rectangle contains a position; None if there is no such leaf.
#[tactic(auto, using(crate::proofs::Holding::holds))]
pub(crate) fn leaf_in(panes: &Panes<'_>, position: Position) -> Option<usize>
    ensures { IsLeafAt panes.now.leaves position.x position.y result }
{
    panes.leaf_at(position)
}

/// Writes the line with the number of a leaf, or `none`. Fails with `WriteFault` if the sink has taken a first part of
/// the bytes, but not all of them. Does not allocate.
pub(crate) fn write_leaf_line<K: Sink>(leaf: Option<usize>, sink: &mut K) -> Result<(), WriteFault>
    ensures { Writes (K.observed sink.old) (K.observed sink.new) result (leaf_line leaf) }
{
    match leaf {
        Some(number) => write_leaf_number(number, sink),
        None => write_all(sink, b"none\n"),
    }
}

fn write_leaf_number<K: Sink>(number: usize, sink: &mut K) -> Result<(), WriteFault>
    ensures { Writes (K.observed sink.old) (K.observed sink.new) result (leaf_line (Some number)) }
{
    let mut print = Print::new();
    print.text(sink, "leaf ");
    print.number(sink, number);
    print.text(sink, "\n");
    print.end(sink)
}
