//! The run of a row.

ghost use Rattle.scene_rows.specs.Ran.{HasStatus, Ran};
ghost use Rattle.std.specs.Prelude.{IfOk};
ghost use Rattle.tui_program.specs.Transcript.{transcript_of};

use crate::program::Program;
use crate::row::Given;
use anyhow::Result;
use std::alloc::Global;
use tui_io::{MemSink, MemSource, Sink, Source};
use tui_pager_run::run_pager;
use tui_pages_run::run_pages;
use tui_panes_run::run_panes;
use tui_show_run::show;

/// Runs a program with arguments and what is given. Returns its status and the sink.
pub(crate) fn run(
    alloc: Global,
    program: Program,
    words: &[String],
    given: Given,
) -> Result<(u8, MemSink)>
    ensures { IfOk result (λ ran. Ran program words.now given.input.items ran.1 ran.0) }
{
    let mut source = MemSource::new(given.input, given.reads);
    let mut sink = MemSink::new(alloc, given.room, given.puts)?;
    let status = end(alloc, program, words, &mut source, &mut sink);
    Ok((status, sink))
}

/// Runs a program, and returns its exit status.
fn end<S: Source, K: Sink>(
    alloc: Global,
    program: Program,
    words: &[String],
    source: &mut S,
    sink: &mut K,
) -> u8
    ensures { HasStatus program words.now (transcript_of (S.observed source.old) (S.observed source.new) (K.observed sink.old) (K.observed sink.new)) result }
{
    match program {
        Program::Show => show(alloc, words, source, sink).status(),
        Program::Pages => run_pages(alloc, words, source, sink).status(),
        Program::Pager => run_pager(alloc, words, source, sink).status(),
        Program::Panes => run_panes(alloc, words, source, sink).status(),
    }
}
