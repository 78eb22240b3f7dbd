//! A pager, moved by the keys of an input.

ghost use Rattle.std.specs.Prelude.{◌≡◌, IfOk, OnOk, map};
ghost use Rattle.tui_pager_run.specs.Input.{step_call, input_data};
ghost use Rattle.tui_pager_run.specs.States.{first_of, last_of, states_of};
ghost use Rattle.tui_pager_lib.specs.Laws.{after_call, after_calls};

use crate::input::Input;
use crate::step::PagerStep;
use std::alloc::Global;
use tui_cells::Mem;
use tui_pager_lib::{Pager, PagerState};

/// A pager after all keys, and its states: at the start, and after each key.
#[derive(Drop)]
pub(crate) struct Run<'v> {
    pub(crate) pager: Pager<'v>,
    pub(crate) states: Vec<PagerState>,
}

/// Makes the steps of all keys. Fails with `NoMemory` if the pager, its screens or its states can't be allocated.
pub(crate) fn press_keys<'v>(alloc: Global, input: Input<'v>) -> Mem<Run<'v>>
    ensures pager { IfOk result (λ run. run.pager ≡ last_of (input_data input.entry)) }
    ensures states { IfOk result (λ run. run.states.items ≡ states_of (first_of (input_data input.entry)) (input_data input.entry).calls) }
{
    let Input {
        size,
        entries,
        steps,
    } = input;
    let mut pager = Pager::with_size(alloc, size, entries)?;
    let states = step_through(alloc, &mut pager, &steps)?;
    Ok(Run { pager, states })
}

/// Makes the steps in order. Returns the state at the start and the one after each step.
fn step_through(alloc: Global, pager: &mut Pager<'_>, steps: &[PagerStep]) -> Mem<Vec<PagerState>>
    ensures pager { OnOk result (pager.new ≡ after_calls pager.old (map step_call steps.now)) }
    ensures states { IfOk result (λ states. states.items ≡ states_of pager.old (map step_call steps.now)) }
{
    let mut states = Vec::with_capacity(alloc, steps.len() + 1)?;
    states.push(pager.state())?;
    'steps: for i in 0..steps.len() {
        make(pager, &steps[i])?;
        states.push(pager.state())?;
    }
    Ok(states)
}

fn make(pager: &mut Pager<'_>, step: &PagerStep) -> Mem<()>
    ensures { OnOk result (pager.new ≡ after_call pager.old (step_call step.now)) }
{
    match step {
        PagerStep::Press(key) => pager.key(*key),
        PagerStep::Resize(size) => pager.set_size(*size),
    }
}
