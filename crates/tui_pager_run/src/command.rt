//! The one command: its arguments, and what it writes.

ghost use Rattle.tui_program.specs.Outcomes.{AnswersWith, no_refusal, nothing};
ghost use Rattle.tui_pager_run.specs.Input.{input_data};
ghost use Rattle.tui_pager_run.specs.Printed.{IsWritten};

use crate::bad_input::BadInput;
use crate::faults::explain_input;
use crate::input::{Input, read_input};
use crate::printing::write_run;
use crate::run::press_keys;
use serde_json::Value;
use std::alloc::Global;
use tui_cells::Mem;
use tui_io::{Sink, WriteFault};
use tui_program::{Cleanup, Job, JsonCommand, Outcome, Rejects, are_empty, write_refused_field};

/// The command of the program. It reads entries and keys. It writes the state after each key, and the last screen.
#[derive(Clone, Copy, Debug, PartialEq, Eq)]
pub struct PagerCommand;

impl JsonCommand for PagerCommand {
    ghost use Rattle.tui_pager_run.specs.Rules.{Names, few_arguments};

    ghost named = { Names };

    ghost few = { few_arguments };

    fn json_command_of(arguments: &[String]) -> Option<PagerCommand> {
        if are_empty(arguments) {
            Some(PagerCommand)
        } else {
            None
        }
    }
}

impl Rejects for PagerCommand {
    ghost use Rattle.tui_pager_run.specs.Refusals.{refusal_line};

    type Refusal = BadInput;

    ghost line = { refusal_line };

    fn reject<K: Sink>(refusal: BadInput, sink: &mut K) -> Result<(), WriteFault> {
        write_refused_field(refusal.field.name(), refusal.at, sink)
    }
}

impl Job for PagerCommand {
    ghost use Rattle.tui_pager_run.specs.Rules.{pager_job};

    ghost job_rules = { pager_job };

    fn answer<K: Sink>(
        &self,
        alloc: Global,
        value: &Value,
        sink: &mut K,
        cleanup: Cleanup,
    ) -> Outcome<(), BadInput> {
        let input = read_input(alloc, value)?;
        show(alloc, input, sink, cleanup)
    }

    fn explain(&self, alloc: Global, value: &Value, bad: BadInput) -> Mem<Option<String>> {
        explain_input(alloc, value, bad)
    }
}

/// Makes the steps of all keys, and then writes the expected output.
fn show<K: Sink>(
    alloc: Global,
    input: Input<'_>,
    sink: &mut K,
    cleanup: Cleanup,
) -> Outcome<(), BadInput>
    ensures { AnswersWith (IsWritten (input_data input.entry)) nothing no_refusal (K.observed sink.old) (K.observed sink.new) result }
{
    let run = press_keys(alloc, input)?;
    let write_result = write_run(&run, sink);
    cleanup.dispose_of(run);
    write_result?;
    Ok(())
}
