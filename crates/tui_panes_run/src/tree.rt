//! The tree of panes.

ghost use Rattle.std.specs.Prelude.{◌-◌, ◌<◌, ◌≡◌, IsOk};
ghost use Rattle.serde_json.specs.View.{view, items_view};
ghost use Rattle.tui_json.specs.Refusals.{Gives};
ghost use Rattle.tui_scene.specs.Item.{item_data};
ghost use Rattle.tui_panes_lib.specs.Pane.{pane_data, parts_of};
ghost use Rattle.tui_panes_run.specs.Counts.{counts_data};
ghost use Rattle.tui_panes_run.specs.Tree.{leaf_in, lone_in, pane_in, part_in, parts_in, split_in, values_in};

use crate::counts::{Counts, MOST_PANES};
use crate::field::PaneField;
use crate::item::read_item;
use crate::refusal::PanesRefusal;
use crate::shape::{Shape, read_shape};
use serde_json::Value;
use std::alloc::Global;
use tui_json::{Fields, InputError, Object, Objects, any_member, required};
use tui_layout::Constraint;
use tui_panes_lib::{Pane, Part};
use tui_scene::Item;

/// Reads a pane that may have `room` levels below its own, and returns it with the counts after it. Rejects the first
/// field that fails its test, of this pane or of a pane inside it.
#[cycle(panes)]
#[tactic(auto, using(crate::proofs::Trees::as_split, crate::proofs::Trees::as_leaf))]
pub(crate) fn read_pane<'v>(
    alloc: Global,
    room: u8,
    value: &'v Value,
    counts: Counts,
) -> Result<(Pane<'v>, Counts), InputError<PanesRefusal>>
    ensures { Gives (λ read. (pane_data read.0, counts_data read.1)) result
        (pane_in room (counts_data counts) (view value.now)) }
{
    match value.get("parts") {
        Some(_) => read_split(alloc, room, value, counts),
        None => read_lone(alloc, value, counts),
    }
}

#[tactic(auto, unfolding(crate::specs::Tree::lone_in))]
fn read_lone<'v>(
    alloc: Global,
    value: &'v Value,
    counts: Counts,
) -> Result<(Pane<'v>, Counts), InputError<PanesRefusal>>
    ensures { Gives (λ read. (pane_data read.0, counts_data read.1)) result
        (lone_in (counts_data counts) (view value.now)) }
{
    let item = read_leaf(alloc, value, counts)?;
    Ok((Pane::Leaf(item), counts.with_leaf()))
}

/// Reads the widget of the next leaf.
#[tactic(auto, unfolding(crate::specs::Tree::leaf_in))]
fn read_leaf<'v>(
    alloc: Global,
    value: &'v Value,
    counts: Counts,
) -> Result<Item<'v>, InputError<PanesRefusal>>
    ensures gives { Gives item_data result (leaf_in (counts_data counts) (view value.now)) }
    ensures room { IsOk result → counts.panes < 256 }
{
    let at = Some(counts.panes);
    let Object(item) = required(alloc, at, PaneField::Item, value)?;
    if counts.panes < MOST_PANES {
        read_item(alloc, counts.leaves, item)
    } else {
        Err(InputError::Refused(PaneField::Item.refusal(at)))
    }
}

#[cycle(panes)]
#[tactic(auto, unfolding(crate::specs::Tree::split_in))]
fn read_split<'v>(
    alloc: Global,
    room: u8,
    value: &'v Value,
    counts: Counts,
) -> Result<(Pane<'v>, Counts), InputError<PanesRefusal>>
    ensures { Gives (λ read. (pane_data read.0, counts_data read.1)) result
        (split_in (pane_in (room - 1)) room (counts_data counts) (view value.now)) }
{
    let number = counts.panes;
    let shape = read_shape(alloc, number, value)?;
    let values = read_values(alloc, room, value, counts)?;
    let (parts, counts) = read_parts(alloc, room - 1, number, values, counts.with_split())?;
    let Shape {
        direction,
        spacing,
        flex,
    } = shape;
    let pane = Pane::Split {
        direction,
        spacing,
        flex,
        parts,
    };
    Ok((pane, counts))
}

/// Reads the values of the parts of the next pane. Rejects the pane if there is no room for it, or for a level below
/// it.
#[tactic(auto, unfolding(crate::specs::Tree::values_in))]
fn read_values<'v>(
    alloc: Global,
    room: u8,
    value: &'v Value,
    counts: Counts,
) -> Result<&'v [Value], InputError<PanesRefusal>>
    ensures gives { Gives (λ values. items_view values.now) result (values_in room (counts_data counts) (view value.now)) }
    ensures levels { IsOk result → 0 < room }
    ensures room { IsOk result → counts.panes < 256 }
{
    let at = Some(counts.panes);
    let Objects(values): Objects<'v, 1, 256> = required(alloc, at, PaneField::Parts, value)?;
    if 0 < room && counts.panes < MOST_PANES {
        Ok(values)
    } else {
        Err(InputError::Refused(PaneField::Parts.refusal(at)))
    }
}

/// Reads the parts of the split of this number, and returns them with the counts after them.
#[cycle(panes)]
fn read_parts<'v>(
    alloc: Global,
    room: u8,
    number: usize,
    values: &'v [Value],
    counts: Counts,
) -> Result<(Vec<Part<'v>>, Counts), InputError<PanesRefusal>>
    ensures { Gives (λ read. (parts_of read.0.items, counts_data read.1)) result
        (parts_in (pane_in room) number (counts_data counts) (items_view values.now)) }
{
    let mut parts = Vec::with_capacity(alloc, values.len())?;
    let mut at = counts;
    for value in values {
        let (part, next) = read_part(alloc, room, number, value, at)?;
        parts.push(part)?;
        at = next;
    }
    Ok((parts, at))
}

#[cycle(panes)]
#[tactic(auto, unfolding(crate::specs::Tree::part_in))]
pub(crate) fn read_part<'v>(
    alloc: Global,
    room: u8,
    number: usize,
    value: &'v Value,
    counts: Counts,
) -> Result<(Part<'v>, Counts), InputError<PanesRefusal>>
    ensures { Gives (λ read. ((read.0.size, pane_data read.0.pane), counts_data read.1)) result
        (part_in (pane_in room) number (counts_data counts) (view value.now)) }
{
    let size: Constraint = required(alloc, Some(number), PaneField::Size, value)?;
    let absent = PaneField::Item.refusal(Some(counts.panes));
    let value = any_member(value, "pane", absent)?;
    let (pane, counts) = read_pane(alloc, room, value, counts)?;
    Ok((Part { size, pane }, counts))
}
