//! The commands: their arguments, what they read, and what they write.

ghost use Rattle.tui_program.specs.Outcomes.{AnswersWith, no_refusal, nothing};
ghost use Rattle.tui_schema.specs.Scene.{reading_data};
ghost use Rattle.tui_show_run.specs.Shown.{IsShown};

use crate::demo::show_demo;
use serde_json::Value;
use std::alloc::Global;
use tui_cells::Mem;
use tui_io::{Sink, Source, WriteFault};
use tui_print::write_screen;
use tui_program::{
    Caller, Cleanup, Job, Numerals, Outcome, ProgramCommand, Rejects, is_single_argument,
    number_after, run_json, write_refused_in_scene,
};
use tui_scene::draw_new;
use tui_schema::{BadField, Reading, explain_scene, read_scene};

/// A command of the program.
#[derive(Clone, Copy, Debug, PartialEq, Eq)]
pub enum ShowCommand {
    /// `scene` reads a scene and writes its screen.
    Scene,
    /// `demo N` draws N items beside N words, from 1 to 100000. It writes a line about them and the rows of the screen.
    Demo(u32),
}

impl ProgramCommand for ShowCommand {
    ghost use Rattle.tui_show_run.specs.Commands.{few_arguments};
    ghost use Rattle.tui_show_run.specs.Outcomes.{show_rules};

    ghost rules = { show_rules };

    ghost few = { few_arguments };

    fn from_arguments(words: &[String]) -> Option<ShowCommand> {
        if is_single_argument(words, "scene") {
            return Some(ShowCommand::Scene);
        }
        let counts = Numerals {
            digits: 6,
            least: 1,
            most: 100_000,
        };
        match number_after(words, "demo", counts) {
            Some(n) => Some(ShowCommand::Demo(n)),
            None => None,
        }
    }

    fn run<S: Source, K: Sink, H: Caller>(
        &self,
        alloc: Global,
        source: &mut S,
        sink: &mut K,
        caller: &H,
    ) -> Outcome<(), BadField> {
        match self {
            ShowCommand::Scene => run_json(self, alloc, source, sink, caller),
            ShowCommand::Demo(n) => show_demo(alloc, *n, sink),
        }
    }
}

impl Rejects for ShowCommand {
    ghost use Rattle.tui_show_run.specs.Outcomes.{scene_job};

    type Refusal = BadField;

    ghost line = { scene_job.line };

    fn reject<K: Sink>(refusal: BadField, sink: &mut K) -> Result<(), WriteFault> {
        write_refused_in_scene("item", refusal.item, refusal.field.name(), sink)
    }
}

impl Job for ShowCommand {
    ghost use Rattle.tui_show_run.specs.Outcomes.{scene_job};

    ghost job_rules = { λ _. scene_job };

    fn answer<K: Sink>(
        &self,
        alloc: Global,
        value: &Value,
        sink: &mut K,
        cleanup: Cleanup,
    ) -> Outcome<(), BadField> {
        let mut reading = read_scene(alloc, value)?;
        let answer = show_scene(alloc, &mut reading, sink, cleanup);
        cleanup.dispose_of(reading);
        answer
    }

    fn explain(&self, alloc: Global, value: &Value, bad: BadField) -> Mem<Option<String>> {
        explain_scene(alloc, value, bad)
    }
}

fn show_scene<K: Sink>(
    alloc: Global,
    reading: &mut Reading<'_>,
    sink: &mut K,
    cleanup: Cleanup,
) -> Outcome<(), BadField>
    ensures { AnswersWith (IsShown (reading_data reading.old)) nothing no_refusal (K.observed sink.old) (K.observed sink.new) result }
{
    let buffer = draw_new(alloc, reading.width, reading.height, &mut reading.scene)?;
    write_screen(&buffer, &reading.scene, sink)?;
    cleanup.dispose_of(buffer);
    Ok(())
}
