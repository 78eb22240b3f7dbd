//! Where a rejected input has the value that is not valid.

ghost use Rattle.std.specs.Prelude.{◌-◌, ◌<◌, ◌^◌, ◌≡◌, IfOk, Some, codes, is_some, option_map, string_bytes};
ghost use Rattle.serde_json.specs.View.{items_view, view};
ghost use Rattle.tui_json.specs.Explanation.{explanation};
ghost use Rattle.serde_json.specs.Find.{get};
ghost use Rattle.tui_json.specs.Faults.{fault_data, fault_of, member_fault, no_parts};
ghost use Rattle.tui_panes_run.specs.Changes.{leaf_number};
ghost use Rattle.tui_panes_run.specs.Counts.{counts_data};
ghost use Rattle.tui_panes_run.specs.Faults.{below_fault, input_fault, item_fault, leaf_fault, pane_fault, part_fault, parts_fault, root_fault, shape_fault, split_fault, widget_fault};
ghost use Rattle.tui_panes_run.specs.Faults.{a_leaf, change_fault, changes_fault, each_change_fault, first_change_fault};
ghost use Rattle.tui_panes_run.specs.Tree.{pane_in};

use crate::change::PaneChange;
use crate::change_field::ChangeField;
use crate::counts::{Counts, MOST_PANES};
use crate::field::PaneField;
use crate::input::ROOM;
use crate::tree::{read_pane, read_part};
use serde_json::Value;
use std::alloc::Global;
use tui_cells::{Mem, NoMemory};
use tui_json::{
    ByName, Counted, Explains, Fault, InputError, Kind, KindError, Numbered, Object, Objects, Step,
    Wanted, Within, explain, inside, member_fault, not_allowed, optional_member_fault,
};
use tui_layout::{Constraint, Direction, Flex};
use tui_schema::{item_fault as field_fault, item_without_area};

/// What is wanted of a tree.
const FEW_PANES: &str = "at most 256 panes, in at most 32 levels";

/// Returns what is wrong with an input that was rejected, in words: where the value is, what is wanted there, and what
/// is there. Fails with `NoMemory` if there is no memory for the text.
pub fn explain_input(alloc: Global, value: &Value) -> Mem<Option<String>>
    ensures { IfOk result (λ text. option_map string_bytes text ≡ option_map explanation (input_fault (view value.now))) }
{
    explain(alloc, input_fault(alloc, value)?)
}

#[tactic(auto, unfolding(crate::specs::Faults::input_fault))]
fn input_fault<'v>(alloc: Global, value: &'v Value) -> Mem<Option<Fault<'v>>>
    ensures { IfOk result (λ found. option_map fault_data found ≡ input_fault (view value.now)) }
{
    let width = member_fault::<Within<1, 1000>, PaneField>(alloc, value, "width")?;
    let height = member_fault::<Within<1, 1000>, PaneField>(alloc, value, "height")?;
    let root = root_fault(alloc, value)?;
    Ok(width.or(height).or(root))
}

#[tactic(auto, unfolding(crate::specs::Faults::root_fault))]
fn root_fault<'v>(alloc: Global, value: &'v Value) -> Mem<Option<Fault<'v>>>
    ensures { IfOk result (λ found. option_map fault_data found ≡ root_fault (view value.now)) }
{
    let Some(root) = value.get("root") else {
        let missing = Fault::missing(alloc, Wanted::Words("an object with `item` or `parts`"));
        return inside(Some(missing), Step::Key("root"));
    };
    match read_pane(alloc, ROOM, root, Counts::none()) {
        Ok((_pane, counts)) => changes_fault(alloc, value, counts),
        Err(InputError::NoMemory) => Err(NoMemory),
        Err(InputError::Refused(_)) => {
            inside(
                pane_fault(alloc, ROOM, root, Counts::none())?,
                Step::Key("root"),
            )
        }
    }
}

/// Returns the fault of a pane that may have `room` levels below its own. `counts` are those of the panes before it.
#[cycle(faults)]
#[tactic(auto, using(crate::proofs::Explained::fault_of_split, crate::proofs::Explained::fault_of_leaf))]
fn pane_fault<'v>(
    alloc: Global,
    room: u8,
    value: &'v Value,
    counts: Counts,
) -> Mem<Option<Fault<'v>>>
    ensures { IfOk result (λ found. option_map fault_data found ≡ pane_fault room (counts_data counts) (view value.now)) }
{
    match value.get("parts") {
        Some(parts) => split_fault(alloc, room, value, parts, counts),
        None => leaf_fault(alloc, value, counts),
    }
}

#[tactic(auto, unfolding(crate::specs::Faults::leaf_fault))]
fn leaf_fault<'v>(alloc: Global, value: &'v Value, counts: Counts) -> Mem<Option<Fault<'v>>>
    ensures { IfOk result (λ found. option_map fault_data found ≡ leaf_fault (counts_data counts) (view value.now)) }
{
    let object = member_fault::<Object<'v>, PaneField>(alloc, value, "item")?;
    let item = if counts.panes < MOST_PANES {
        item_fault(alloc, value, counts.leaves)?
    } else {
        not_allowed(alloc, value, "item", FEW_PANES)?
    };
    Ok(object.or(item))
}

/// Returns the fault of a split, whose member `parts` is this value.
#[cycle(faults)]
#[tactic(auto, unfolding(crate::specs::Faults::split_fault))]
fn split_fault<'v>(
    alloc: Global,
    room: u8,
    value: &'v Value,
    parts: &'v Value,
    counts: Counts,
) -> Mem<Option<Fault<'v>>>
    requires { get (codes "parts") (view value.now) ≡ Some (view parts.now) }
    ensures { IfOk result (λ found. option_map fault_data found
        ≡ split_fault (parts_fault (pane_in (room - 1)) (pane_fault (room - 1)) counts.panes 0) room (counts_data counts) (view value.now)) }
{
    let shape = shape_fault(alloc, value)?;
    let array = member_fault::<Objects<'v, 1, 256>, PaneField>(alloc, value, "parts")?;
    let below = below_fault(alloc, room, value, parts, counts)?;
    Ok(shape.or(array).or(below))
}

/// Returns the fault of the first part of a split that is rejected, or of the parts if there is no room for them.
#[cycle(faults)]
fn below_fault<'v>(
    alloc: Global,
    room: u8,
    value: &'v Value,
    parts: &'v Value,
    counts: Counts,
) -> Mem<Option<Fault<'v>>>
    requires { get (codes "parts") (view value.now) ≡ Some (view parts.now) }
    ensures { IfOk result (λ found. option_map fault_data found
        ≡ below_fault (parts_fault (pane_in (room - 1)) (pane_fault (room - 1)) counts.panes 0) room (counts_data counts) (view value.now)) }
{
    if room == 0 || counts.panes >= MOST_PANES {
        return not_allowed(alloc, value, "parts", FEW_PANES);
    }
    let found = match parts.as_array() {
        Some(values) => {
            let values = values.as_slice();
            parts_fault(alloc, room - 1, counts.panes, values, counts.with_split())?
        }
        None => None,
    };
    inside(found, Step::Key("parts"))
}

#[tactic(auto, unfolding(crate::specs::Faults::shape_fault))]
fn shape_fault<'v>(alloc: Global, value: &'v Value) -> Mem<Option<Fault<'v>>>
    ensures { IfOk result (λ found. option_map fault_data found ≡ shape_fault (view value.now)) }
{
    let direction = optional_member_fault::<ByName<Direction>, PaneField>(
        alloc,
        value,
        "direction",
    )?;
    let spacing = optional_member_fault::<u16, PaneField>(alloc, value, "spacing")?;
    let flex = optional_member_fault::<ByName<Flex>, PaneField>(alloc, value, "flex")?;
    Ok(direction.or(spacing).or(flex))
}

/// Returns the fault of the first part that is rejected, of the split of this number. Its panes may have `room` levels
/// below their own.
#[cycle(faults)]
fn parts_fault<'v>(
    alloc: Global,
    room: u8,
    number: usize,
    values: &'v [Value],
    counts: Counts,
) -> Mem<Option<Fault<'v>>>
    ensures { IfOk result (λ found. option_map fault_data found
        ≡ parts_fault (pane_in room) (pane_fault room) number 0 (counts_data counts) (items_view values.now)) }
{
    let mut at = counts;
    'parts: for index in 0..values.len() {
        let value = &values[index];
        match read_part(alloc, room, number, value, at) {
            Ok((_part, next)) => at = next,
            Err(InputError::NoMemory) => return Err(NoMemory),
            Err(InputError::Refused(_)) => {
                return inside(part_fault(alloc, room, value, at)?, Step::Index(index));
            }
        }
    }
    Ok(None)
}

#[cycle(faults)]
#[tactic(auto, unfolding(crate::specs::Faults::part_fault))]
fn part_fault<'v>(
    alloc: Global,
    room: u8,
    value: &'v Value,
    counts: Counts,
) -> Mem<Option<Fault<'v>>>
    ensures { IfOk result (λ found. option_map fault_data found
        ≡ part_fault (pane_fault room) (counts_data counts) (view value.now)) }
{
    let size = member_fault::<Constraint, PaneField>(alloc, value, "size")?;
    let pane = match value.get("pane") {
        Some(pane) => pane_fault(alloc, room, pane, counts)?,
        None => Some(Fault::missing(alloc, Wanted::Words("an object with `item` or `parts`"))),
    };
    Ok(size.or(inside(pane, Step::Key("pane"))?))
}

/// Returns the fault of a widget that is the member `item`. The widget has this number.
fn item_fault<'v>(alloc: Global, value: &'v Value, number: usize) -> Mem<Option<Fault<'v>>>
    ensures { IfOk result (λ found. option_map fault_data found ≡ item_fault number (view value.now)) }
{
    let found = match value.get("item") {
        Some(item) => widget_fault(alloc, item, number)?,
        None => None,
    };
    inside(found, Step::Key("item"))
}

fn widget_fault<'v>(alloc: Global, value: &'v Value, number: usize) -> Mem<Option<Fault<'v>>>
    ensures { IfOk result (λ found. option_map fault_data found ≡ widget_fault number (view value.now)) }
{
    match item_without_area(alloc, value, number) {
        Ok(_item) => Ok(None),
        Err(InputError::Refused(bad)) => field_fault(alloc, value, bad.field),
        Err(InputError::NoMemory) => Err(NoMemory),
    }
}

/// Returns the fault of the changes of an input that has this many leaves.
#[tactic(auto, unfolding(crate::specs::Faults::changes_fault))]
fn changes_fault<'v>(alloc: Global, value: &'v Value, counts: Counts) -> Mem<Option<Fault<'v>>>
    ensures { IfOk result (λ found. option_map fault_data found ≡ changes_fault counts.leaves (view value.now)) }
{
    let array = optional_member_fault::<Counted<'v, 0, 256>, PaneField>(alloc, value, "changes")?;
    let change = first_change_fault(alloc, value, counts)?;
    Ok(array.or(change))
}

/// Returns the fault of the first change that is rejected, if the changes are an array.
fn first_change_fault<'v>(alloc: Global, value: &'v Value, counts: Counts) -> Mem<Option<Fault<'v>>>
    ensures { IfOk result (λ found. option_map fault_data found ≡ first_change_fault counts.leaves (view value.now)) }
{
    let Some(changes) = value.get("changes") else {
        return Ok(None);
    };
    let Some(values) = changes.as_array() else {
        return Ok(None);
    };
    let found = each_change_fault(alloc, values.as_slice(), counts)?;
    inside(found, Step::Key("changes"))
}

/// Returns the fault of the first change that is rejected.
fn each_change_fault<'v>(
    alloc: Global,
    values: &'v [Value],
    counts: Counts,
) -> Mem<Option<Fault<'v>>>
    ensures { IfOk result (λ found. option_map fault_data found ≡ each_change_fault counts.leaves 0 (items_view values.now)) }
{
    'changes: for index in 0..values.len() {
        let value = &values[index];
        match PaneChange::read(alloc, counts, index, value) {
            Ok(_change) => {}
            Err(InputError::NoMemory) => return Err(NoMemory),
            Err(InputError::Refused(_)) => {
                return inside(
                    change_fault(alloc, value, counts, index)?,
                    Step::Index(index),
                );
            }
        }
    }
    Ok(None)
}

/// Returns the fault of the change of an index.
#[tactic(auto, unfolding(crate::specs::Faults::change_fault))]
fn change_fault<'v>(
    alloc: Global,
    value: &'v Value,
    counts: Counts,
    index: usize,
) -> Mem<Option<Fault<'v>>>
    requires { index < 2 ^ 63 }
    ensures { IfOk result (λ found. option_map fault_data found ≡ change_fault counts.leaves index (view value.now)) }
{
    let leaf = leaf_number_fault(alloc, value, counts.leaves)?;
    let object = member_fault::<Object<'v>, PaneField>(alloc, value, "item")?;
    let item = item_fault(alloc, value, counts.leaves + index)?;
    Ok(leaf.or(object).or(item))
}

/// Returns the fault of the number of a leaf, which has to be less than `leaves`.
fn leaf_number_fault<'v>(alloc: Global, value: &'v Value, leaves: usize) -> Mem<Option<Fault<'v>>>
    ensures { IfOk result (λ found. option_map fault_data found
        ≡ member_fault (a_leaf leaves) (fault_of (leaf_number leaves) (a_leaf leaves) no_parts) (codes "leaf") (view value.now)) }
{
    if !value.is_object() {
        return Ok(Some(Fault::whole(alloc, Wanted::Words("an object"), value)));
    }
    let wanted = Wanted::Number(0, leaves.saturating_sub(1) as u64);
    let found = match value.get("leaf") {
        Some(number) if is_leaf(number, leaves) => None,
        Some(number) => Some(Fault::whole(alloc, wanted, number)),
        None => Some(Fault::missing(alloc, wanted)),
    };
    inside(found, Step::Key("leaf"))
}

fn is_leaf(number: &Value, leaves: usize) -> bool
    ensures { result ≡ is_some (leaf_number leaves (view number.now)) }
{
    match number.as_u64() {
        Some(number) => number < leaves as u64,
        None => false,
    }
}
