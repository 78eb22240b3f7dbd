//! The input.

ghost use Rattle.serde_json.specs.View.{view};
ghost use Rattle.tui_json.specs.Refusals.{Gives};
ghost use Rattle.tui_panes_run.specs.Input.{input_data, input_of, size_in};

use crate::change::{PaneChange, read_changes};
use crate::counts::Counts;
use crate::field::PaneField;
use crate::refusal::PanesRefusal;
use crate::tree::read_pane;
use serde_json::Value;
use std::alloc::Global;
use tui_cells::Size;
use tui_json::{Fields, InputError, Within, any_member, required};
use tui_panes_lib::Pane;

/// The most levels below the root.
pub(crate) const ROOM: u8 = 31;

/// All fields of an input. Its strings are borrowed from the JSON value.
#[derive(Drop)]
pub(crate) struct Input<'v> {
    pub(crate) size: Size,
    pub(crate) root: Pane<'v>,
    pub(crate) changes: Vec<PaneChange<'v>>,
}

/// Reads an input from a JSON value. Rejects the first field that fails its test.
#[tactic(auto, unfolding(crate::specs::Input::input_of))]
pub(crate) fn read_input<'v>(
    alloc: Global,
    value: &'v Value,
) -> Result<Input<'v>, InputError<PanesRefusal>>
    ensures { Gives input_data result (input_of (view value.now)) }
{
    let size = read_size(alloc, value)?;
    let root = any_member(value, "root", PaneField::Root.refusal(None))?;
    let (root, counts) = read_pane(alloc, ROOM, root, Counts::none())?;
    let changes = read_changes(alloc, counts, value)?;
    Ok(Input {
        size,
        root,
        changes,
    })
}

#[tactic(auto, unfolding(crate::specs::Input::size_in))]
fn read_size(alloc: Global, value: &Value) -> Result<Size, InputError<PanesRefusal>>
    ensures { Gives (λ size. size) result (size_in (view value.now)) }
{
    let Within(width): Within<1, 1000> = required(alloc, None, PaneField::Width, value)?;
    let Within(height): Within<1, 1000> = required(alloc, None, PaneField::Height, value)?;
    Ok(Size { width, height })
}
