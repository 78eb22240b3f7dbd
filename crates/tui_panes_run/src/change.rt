//! Changes of single panes.

ghost use Rattle.std.specs.Prelude.{map};
ghost use Rattle.serde_json.specs.View.{view};
ghost use Rattle.tui_json.specs.Refusals.{Gives};
ghost use Rattle.tui_panes_run.specs.Changes.{change_data, change_in, changes_in, in_change, leaf_number};
ghost use Rattle.tui_panes_run.specs.declared.change_field.ChangeField.TheVariants as changing;

use crate::change_field::ChangeField;
use crate::counts::Counts;
use crate::field::PaneField;
use crate::item::read_item;
use crate::refusal::PanesRefusal;
use serde_json::Value;
use std::alloc::Global;
use tui_json::{Counted, Fields, InputError, Numbered, Object, each_numbered, optional, required};
use tui_scene::Item;

/// A widget that replaces the one of a leaf.
#[derive(Drop)]
pub(crate) struct PaneChange<'v> {
    /// The number of the leaf.
    pub(crate) leaf: usize,
    pub(crate) item: Item<'v>,
}

/// Reads the changes of an input that has these leaves. There are none if the field is absent or null.
#[tactic(auto, unfolding(crate::specs::Changes::changes_in))]
pub(crate) fn read_changes<'v>(
    alloc: Global,
    counts: Counts,
    value: &'v Value,
) -> Result<Vec<PaneChange<'v>>, InputError<PanesRefusal>>
    ensures { Gives (λ changes. map change_data changes.items) result (changes_in counts.leaves (view value.now)) }
{
    let found: Option<Counted<'v, 0, 256>> = optional(alloc, None, PaneField::Changes, value)?;
    match found {
        Some(Counted(values)) => each_numbered::<PaneChange<'v>, ChangeField>(
            alloc, counts, values,
        ),
        None => Ok(Vec::new(alloc)),
    }
}

impl<'v> Numbered<'v, ChangeField> for PaneChange<'v> {
    ghost use Rattle.tui_panes_run.specs.Changes.{ChangeData};

    /// The leaves that a change may name.
    type Context = Counts;

    ghost AsData = { ChangeData };

    ghost as_data = { change_data };

    ghost tests = { λ counts. change_in counts.leaves };

    #[tactic(auto, unfolding(crate::specs::Changes::change_in))]
    fn read(
        alloc: Global,
        counts: Counts,
        number: usize,
        value: &'v Value,
    ) -> Result<PaneChange<'v>, InputError<PanesRefusal>> {
        let leaf = read_place(alloc, counts.leaves, value)?;
        let Object(item) = required(alloc, None, ChangeField::Item, value)?;
        let item = read_item(alloc, counts.leaves + number, item)?;
        Ok(PaneChange { leaf, item })
    }
}

/// Reads the number of a leaf, which must be less than `leaves`.
fn read_place(
    alloc: Global,
    leaves: usize,
    value: &Value,
) -> Result<usize, InputError<PanesRefusal>>
    ensures { Gives (λ leaf. leaf) result (in_change (leaf_number leaves) changing.Leaf (view value.now)) }
{
    let leaf: u64 = required(alloc, None, ChangeField::Leaf, value)?;
    if leaf < leaves as u64 {
        Ok(leaf as usize)
    } else {
        Err(InputError::Refused(ChangeField::Leaf.refusal(None)))
    }
}
