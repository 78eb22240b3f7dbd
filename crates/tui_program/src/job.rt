//! Commands that read a JSON value.

ghost use Rattle.std.specs.Prelude.{◌≡◌, IfOk, IfSome, option_map, string_bytes};
ghost use Rattle.serde_json.specs.View.{view};
ghost use Rattle.tui_program.specs.Transcript.{transcript_of};
ghost use Rattle.tui_program.specs.Outcomes.{Answers, EndsReading, EndsWith, IsExpectedFor, IsExplanation, IsPartialOutput};
ghost use Rattle.tui_program.specs.Rules.{JobRules};

use crate::caller::Caller;
use crate::cleanup::Cleanup;
use crate::input::read_input;
use crate::json::json_or_explain;
use crate::rejects::{Rejects, report_stop};
use crate::stop::{Outcome, Stop};
use serde_json::Value;
use std::alloc::Global;
use tui_cells::{Mem, NoMemory};
use tui_io::{Sink, Source};

/// What a command does with the JSON value that it reads.
pub trait Job: Rejects {
    // The meaning of a value, why it is rejected, and what is written.
    ghost job_rules: { Self → JobRules Self.Refusal };

    /// Tests a value, and writes the expected output. On `Rejected` nothing has been written yet.
    fn answer<K: Sink>(
        &self,
        alloc: Global,
        value: &Value,
        sink: &mut K,
        cleanup: Cleanup,
    ) -> Outcome<(), Self::Refusal>
        ensures answers { Answers (job_rules self.now) (view value.now) (K.observed sink.old) (K.observed sink.new) result }
        ensures line { (job_rules self.now).line ≡ Self.Rejects.line };

    /// Returns in words what is wrong with a rejected value. Fails with `NoMemory` if there is no memory for the text.
    fn explain(&self, alloc: Global, value: &Value, refusal: Self::Refusal) -> Mem<Option<String>>
        ensures explained { IfOk result (λ text. option_map string_bytes text ≡ (job_rules self.now).explained refusal (view value.now)) };
}

/// Reads a source to its end, parses it as JSON, and writes the expected output for the value. Says to the caller, in
/// words, what is wrong with an input that is not JSON or that is rejected.
pub fn run_json<J: Job, S: Source, K: Sink, H: Caller>(
    job: &J,
    alloc: Global,
    source: &mut S,
    sink: &mut K,
    caller: &H,
) -> Outcome<(), J::Refusal>
    ensures { EndsReading (J.job_rules job.now)
        (transcript_of (S.observed source.old) (S.observed source.new) (K.observed sink.old) (K.observed sink.new)) result }
{
    let bytes = match read_input(alloc, source) {
        Ok(bytes) => bytes,
        Err(stop) => return Err(report_stop::<J, K>(stop, sink)),
    };
    match json_or_explain(alloc, bytes, caller) {
        Ok(value) => {
            let outcome = run_value(job, alloc, &value, sink, caller);
            caller.cleanup().dispose_of(value);
            outcome
        }
        Err(stop) => Err(report_stop::<J, K>(stop, sink)),
    }
}

fn run_value<J: Job, K: Sink, H: Caller>(
    job: &J,
    alloc: Global,
    value: &Value,
    sink: &mut K,
    caller: &H,
) -> Outcome<(), J::Refusal>
    ensures { EndsWith (IsExpectedFor (J.job_rules job.now) (view value.now)) (IsPartialOutput (J.job_rules job.now) (view value.now))
        (K.observed sink.old) (K.observed sink.new) result }
{
    match job.answer(alloc, value, sink, caller.cleanup()) {
        Ok(()) => Ok(()),
        Err(stop) => {
            let ended = report_stop::<J, K>(stop, sink);
            explain_stop(job, alloc, value, ended, caller);
            Err(ended)
        }
    }
}

/// Says to the caller why a value is rejected, if it is.
fn explain_stop<J: Job, H: Caller>(
    job: &J,
    alloc: Global,
    value: &Value,
    stop: Stop<J::Refusal>,
    caller: &H,
) {
    if let Some(text) = explanation_of(job, alloc, value, stop) {
        caller.explain(text.as_str());
    }
}

/// Returns in words why a run was stopped at this value. None if the value is not rejected, if there are no words for
/// the rejection, or if there is no memory for them.
fn explanation_of<J: Job>(
    job: &J,
    alloc: Global,
    value: &Value,
    stop: Stop<J::Refusal>,
) -> Option<String>
    ensures { IfSome result (λ text. IsExplanation (J.job_rules job.now) (view value.now) stop (string_bytes text)) }
{
    let Stop::Rejected(refusal) = stop else {
        return None;
    };
    match job.explain(alloc, value, refusal) {
        Ok(text) => text,
        Err(NoMemory) => None,
    }
}
