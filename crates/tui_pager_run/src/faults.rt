//! Where a rejected input has the value that is not valid.

ghost use Rattle.std.specs.Prelude.{◌≡◌, IfOk, option_map, string_bytes};
ghost use Rattle.serde_json.specs.View.{view};
ghost use Rattle.tui_json.specs.Explanation.{explanation};
ghost use Rattle.tui_json.specs.Faults.{fault_data};
ghost use Rattle.tui_pager_run.specs.Faults.{a_step, entry_fault, field_fault, input_fault};

use crate::bad_input::BadInput;
use crate::field::PagerField;
use crate::step::PagerStep;
use serde_json::Value;
use std::alloc::Global;
use tui_cells::Mem;
use tui_json::{
    Counted, Explains, Fault, Short, Wanted, Within, explain, fault_of, inside_at, member_fault,
    value_at,
};

/// Returns what is wrong with an input that was rejected, in words: where the value is, what is wanted there, and what
/// is there. Fails with `NoMemory` if there is no memory for the text.
pub fn explain_input(alloc: Global, value: &Value, bad: BadInput) -> Mem<Option<String>>
    ensures { IfOk result (λ text. option_map string_bytes text ≡ option_map explanation (input_fault bad (view value.now))) }
{
    explain(alloc, input_fault(alloc, value, bad)?)
}

fn input_fault<'v>(alloc: Global, value: &'v Value, bad: BadInput) -> Mem<Option<Fault<'v>>>
    ensures { IfOk result (λ found. option_map fault_data found ≡ input_fault bad (view value.now)) }
{
    let Some(number) = bad.at else {
        return field_fault(alloc, value, bad.field);
    };
    if bad.field == PagerField::Keys {
        let found = match value_at(value, "keys", number) {
            Some(step) => fault_of::<PagerStep, PagerField>(alloc, step)?,
            None => None,
        };
        return inside_at(found, "keys", number);
    }
    let found = match value_at(value, "entries", number) {
        Some(entry) => entry_fault(alloc, entry, bad.field)?,
        None => None,
    };
    inside_at(found, "entries", number)
}

/// Returns the fault of a field of the input.
fn field_fault<'v>(alloc: Global, value: &'v Value, field: PagerField) -> Mem<Option<Fault<'v>>>
    ensures { IfOk result (λ found. option_map fault_data found ≡ field_fault field (view value.now)) }
{
    match field {
        PagerField::Width => member_fault::<Within<12, 200>, PagerField>(alloc, value, "width"),
        PagerField::Height => member_fault::<Within<5, 100>, PagerField>(alloc, value, "height"),
        PagerField::Entries => member_fault::<Counted<'v, 0, 1000>, PagerField>(
            alloc, value, "entries",
        ),
        PagerField::Keys => member_fault::<Counted<'v, 0, 1000>, PagerField>(alloc, value, "keys"),
        PagerField::Title | PagerField::Body => Ok(None),
    }
}

/// Returns the fault of a field of an entry.
fn entry_fault<'v>(alloc: Global, value: &'v Value, field: PagerField) -> Mem<Option<Fault<'v>>>
    ensures { IfOk result (λ found. option_map fault_data found ≡ entry_fault field (view value.now)) }
{
    match field {
        PagerField::Title => member_fault::<Short<'v, 1000>, PagerField>(alloc, value, "title"),
        PagerField::Body => member_fault::<Short<'v, 65536>, PagerField>(alloc, value, "body"),
        _ => Ok(None),
    }
}

impl<'v> Explains<'v, PagerField> for PagerStep {
    ghost use Rattle.tui_json.specs.Faults.{no_parts};

    ghost wanted = { a_step };

    ghost part_fault = { no_parts };

    fn wanted() -> Wanted<'v> {
        Wanted::Words(
            "`Up`, `Down`, `PageUp`, `PageDown`, `First`, `Last`, \
             `LineUp`, `LineDown`, `BodyTop`, `BodyEnd`, or \
             `[columns, rows]` of 12 to 200 columns and 5 to 100 rows",
        )
    }

    fn part_fault(_alloc: Global, _value: &'v Value) -> Mem<Option<Fault<'v>>> {
        Ok(None)
    }
}
