//! The commands: their arguments, and what they write.

ghost use Rattle.std.specs.Prelude.{◌≤◌, ◌<◌, All, length};
ghost use Rattle.tui_program.specs.Outcomes.{AnswersWith, no_refusal, nothing};
ghost use Rattle.tui_panes_lib.specs.Levels.{levels};
ghost use Rattle.tui_panes_run.specs.Found.{IsFound};
ghost use Rattle.tui_panes_run.specs.Input.{input_data};
ghost use Rattle.tui_panes_run.specs.Rules.{IsWritten};
ghost use Rattle.tui_panes_run.specs.Shown.{ArePanesShown, leaves_of};

use crate::faults::explain_input;
use crate::finding::{leaf_in, write_leaf_line};
use crate::input::{Input, read_input};
use crate::order::Order;
use crate::refusal::{PanesRefusal, write_refusal};
use crate::screen::{drawn, placed};
use serde_json::Value;
use std::alloc::Global;
use tui_cells::{Mem, Position};
use tui_io::{Sink, WriteFault};
use tui_print::write_screen;
use tui_program::{
    Cleanup, Job, JsonCommand, Numerals, Outcome, Rejects, are_empty, is_single_argument,
    numbers_after,
};

/// A command of the program. Each reads a tree of panes and changes.
#[derive(Clone, Copy, Debug, PartialEq, Eq)]
pub enum PanesCommand {
    /// Draws the panes in an order, makes the changes, and writes the screen. Without arguments the order is from first
    /// to last; with `reverse` it is from last to first.
    Draw(Order),
    /// `at X Y` writes which leaf is at a position, and draws nothing.
    At { x: u16, y: u16 },
}

impl JsonCommand for PanesCommand {
    ghost use Rattle.tui_panes_run.specs.Rules.{Names, few_arguments};

    ghost named = { Names };

    ghost few = { few_arguments };

    fn json_command_of(arguments: &[String]) -> Option<PanesCommand> {
        if are_empty(arguments) {
            return Some(PanesCommand::Draw(Order::FirstToLast));
        }
        if is_single_argument(arguments, "reverse") {
            return Some(PanesCommand::Draw(Order::LastToFirst));
        }
        let places = Numerals {
            digits: 5,
            least: 0,
            most: 65_535,
        };
        match numbers_after(arguments, "at", places) {
            Some((x, y)) => Some(PanesCommand::At {
                x: x as u16,
                y: y as u16,
            }),
            None => None,
        }
    }
}

impl Rejects for PanesCommand {
    ghost use Rattle.tui_panes_run.specs.Refusals.{refusal_line};

    type Refusal = PanesRefusal;

    ghost line = { refusal_line };

    fn reject<K: Sink>(refusal: PanesRefusal, sink: &mut K) -> Result<(), WriteFault> {
        write_refusal(refusal, sink)
    }
}

impl Job for PanesCommand {
    ghost use Rattle.tui_panes_run.specs.Rules.{panes_job};

    ghost job_rules = { panes_job };

    fn answer<K: Sink>(
        &self,
        alloc: Global,
        value: &Value,
        sink: &mut K,
        cleanup: Cleanup,
    ) -> Outcome<(), PanesRefusal> {
        let input = read_input(alloc, value)?;
        write(*self, alloc, input, sink, cleanup)
    }

    fn explain(&self, alloc: Global, value: &Value, _refusal: PanesRefusal) -> Mem<Option<String>> {
        explain_input(alloc, value)
    }
}

/// Runs a command on an input, and writes its output.
fn write<K: Sink>(
    command: PanesCommand,
    alloc: Global,
    input: Input<'_>,
    sink: &mut K,
    cleanup: Cleanup,
) -> Outcome<(), PanesRefusal>
    requires depth { levels (input_data input).root ≤ 32 }
    requires leaves { All (λ c. c.leaf < length (leaves_of (input_data input))) (input_data input).changes }
    ensures { AnswersWith (IsWritten command (input_data input.entry)) nothing no_refusal (K.observed sink.old) (K.observed sink.new) result }
{
    match command {
        PanesCommand::Draw(order) => show(alloc, input, order, sink, cleanup),
        PanesCommand::At { x, y } => find(alloc, input, Position { x, y }, sink, cleanup),
    }
}

fn show<K: Sink>(
    alloc: Global,
    input: Input<'_>,
    order: Order,
    sink: &mut K,
    cleanup: Cleanup,
) -> Outcome<(), PanesRefusal>
    requires depth { levels (input_data input).root ≤ 32 }
    requires leaves { All (λ c. c.leaf < length (leaves_of (input_data input))) (input_data input).changes }
    ensures { AnswersWith (ArePanesShown order (input_data input.entry)) nothing no_refusal (K.observed sink.old) (K.observed sink.new) result }
{
    let screen = drawn(alloc, input, order)?;
    write_screen(&screen.buffer, screen.panes.scene(), sink)?;
    cleanup.dispose_of(screen);
    Ok(())
}

fn find<K: Sink>(
    alloc: Global,
    input: Input<'_>,
    position: Position,
    sink: &mut K,
    cleanup: Cleanup,
) -> Outcome<(), PanesRefusal>
    requires { levels (input_data input).root ≤ 32 }
    ensures { AnswersWith (IsFound position.x position.y (input_data input.entry)) nothing no_refusal
        (K.observed sink.old) (K.observed sink.new) result }
{
    let panes = placed(alloc, input.size, input.root)?;
    let leaf = leaf_in(&panes, position);
    let written = write_leaf_line(leaf, sink);
    cleanup.dispose_of(panes);
    written?;
    Ok(())
}
