//! The commands: their arguments, and what they write.

ghost use Rattle.std.specs.Prelude.{◌≡◌};
ghost use Rattle.tui_pages_lib.specs.Strokes.{page_area};
ghost use Rattle.tui_program.specs.Outcomes.{AnswersWith, no_refusal};
ghost use Rattle.tui_pages_run.specs.Rules.{IsAllowedPartial, IsWritten};

use crate::faults::explain_report;
use crate::paged_report::{PagedReport, read_report};
use crate::printing::{print_count, print_pages};
use crate::refusal::{PagesRefusal, write_refusal};
use serde_json::Value;
use std::alloc::Global;
use tui_cells::Mem;
use tui_io::{Sink, WriteFault};
use tui_program::{Cleanup, Job, JsonCommand, Outcome, Rejects, are_empty, is_single_argument};

/// A command of the program. Each reads a report.
#[derive(Clone, Copy, Debug, PartialEq, Eq)]
pub enum PagesCommand {
    /// No arguments: writes the pages.
    Print,
    /// `count` writes how many pages there are.
    Count,
}

impl JsonCommand for PagesCommand {
    ghost use Rattle.tui_pages_run.specs.Rules.{Names, few_arguments};

    ghost named = { Names };

    ghost few = { few_arguments };

    fn json_command_of(arguments: &[String]) -> Option<PagesCommand> {
        if are_empty(arguments) {
            Some(PagesCommand::Print)
        } else if is_single_argument(arguments, "count") {
            Some(PagesCommand::Count)
        } else {
            None
        }
    }
}

impl Rejects for PagesCommand {
    ghost use Rattle.tui_pages_run.specs.Refusals.{refusal_line};

    type Refusal = PagesRefusal;

    ghost line = { refusal_line };

    fn reject<K: Sink>(refusal: PagesRefusal, sink: &mut K) -> Result<(), WriteFault> {
        write_refusal(refusal, sink)
    }
}

impl Job for PagesCommand {
    ghost use Rattle.tui_pages_run.specs.Rules.{pages_job};

    ghost job_rules = { pages_job };

    fn answer<K: Sink>(
        &self,
        alloc: Global,
        value: &Value,
        sink: &mut K,
        cleanup: Cleanup,
    ) -> Outcome<(), PagesRefusal> {
        let paged = read_report(alloc, value)?;
        let answer = write(*self, alloc, &paged, sink);
        cleanup.dispose_of(paged);
        answer
    }

    fn explain(&self, alloc: Global, value: &Value, bad: PagesRefusal) -> Mem<Option<String>> {
        explain_report(alloc, value, bad)
    }
}

/// Writes the expected output for a report.
fn write<K: Sink>(
    command: PagesCommand,
    alloc: Global,
    paged: &PagedReport<'_>,
    sink: &mut K,
) -> Outcome<(), PagesRefusal>
    requires { paged.now.area ≡ page_area paged.now.report }
    ensures { AnswersWith (IsWritten command paged.now.report) (IsAllowedPartial command paged.now.report) no_refusal
        (K.observed sink.old) (K.observed sink.new) result }
{
    match command {
        PagesCommand::Print => print_pages(alloc, paged.area, &paged.report, sink),
        PagesCommand::Count => print_count(&paged.report, sink),
    }
}
