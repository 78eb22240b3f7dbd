//! The command `rows`: what it does with a scene.

ghost use Rattle.tui_program.specs.Outcomes.{AnswersWith, no_refusal, nothing};
ghost use Rattle.tui_schema.specs.Scene.{reading_data};
ghost use Rattle.tui_view_run.specs.Shown.{AreRowsShown};

use serde_json::Value;
use std::alloc::Global;
use tui_cells::Mem;
use tui_io::{Sink, WriteFault};
use tui_program::{Cleanup, Job, Outcome, Rejects, write_refused_in_scene};
use tui_scene::draw_new;
use tui_schema::{BadField, Reading, explain_scene, read_scene};
use tui_terminal::write_styled_rows;
use tui_terminal_model::Depth;

/// What the command does with a scene, for a terminal of this colour depth.
#[derive(Clone, Copy)]
pub(crate) struct RowsCommand {
    pub(crate) depth: Depth,
}

impl Rejects for RowsCommand {
    ghost use Rattle.tui_view_run.specs.Frames.{refusal_line};

    type Refusal = BadField;

    ghost line = { refusal_line };

    fn reject<K: Sink>(refusal: BadField, sink: &mut K) -> Result<(), WriteFault> {
        write_refused_in_scene("item", refusal.item, refusal.field.name(), sink)
    }
}

impl Job for RowsCommand {
    ghost use Rattle.tui_view_run.specs.Rules.{rows_job};

    ghost job_rules = { λ rows. rows_job rows.depth };

    fn answer<K: Sink>(
        &self,
        alloc: Global,
        value: &Value,
        sink: &mut K,
        cleanup: Cleanup,
    ) -> Outcome<(), BadField> {
        let mut reading = read_scene(alloc, value)?;
        let answer = show_rows(alloc, self.depth, &mut reading, sink, cleanup);
        cleanup.dispose_of(reading);
        answer
    }

    fn explain(&self, alloc: Global, value: &Value, bad: BadField) -> Mem<Option<String>> {
        explain_scene(alloc, value, bad)
    }
}

fn show_rows<K: Sink>(
    alloc: Global,
    depth: Depth,
    reading: &mut Reading<'_>,
    sink: &mut K,
    cleanup: Cleanup,
) -> Outcome<(), BadField>
    ensures { AnswersWith (AreRowsShown depth (reading_data reading.old)) nothing no_refusal (K.observed sink.old) (K.observed sink.new) result }
{
    let buffer = draw_new(alloc, reading.width, reading.height, &mut reading.scene)?;
    write_styled_rows(&buffer, depth, sink)?;
    cleanup.dispose_of(buffer);
    Ok(())
}
