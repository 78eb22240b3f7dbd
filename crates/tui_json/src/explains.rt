//! Kinds that say what is wrong with a value.

ghost use Rattle.std.specs.Prelude.{◌≡◌, IfOk, Option, option_map};
ghost use Rattle.serde_json.specs.Data.{Data};
ghost use Rattle.serde_json.specs.View.{items_view, view};
ghost use Rattle.tui_json.specs.Faults.{FaultData, WantedData, fault_data, index, inside, key, value_at, wanted_data, words};
ghost use Rattle.tui_json.specs.Faults.{elements_fault, fault_of, given_member_fault, items_fault, member_fault, not_allowed, optional_member_fault};

use crate::fault::{Fault, Step, inside};
use crate::kind::{Kind, KindError};
use crate::members::present;
use crate::wanted::Wanted;
use serde_json::Value;
use std::alloc::Global;
use tui_cells::{Mem, NoMemory};

/// A kind that says what it wants, and that finds the part of a value that is not of its own kind.
pub trait Explains<'v, F>: Kind<'v, F> + Drop {
    // What a value of this kind is.
    ghost wanted: { WantedData };

    // The fault of the first part of a value that has one.
    ghost part_fault: { Data → Option FaultData };

    /// Returns what a value of this kind is.
    fn wanted() -> Wanted<'v>
        ensures { wanted_data result ≡ wanted };

    /// Returns the fault of the first part of the value that has one. A kind whose values have no parts returns None.
    fn part_fault(alloc: Global, value: &'v Value) -> Mem<Option<Fault<'v>>>
        ensures { IfOk result (λ found. option_map fault_data found ≡ part_fault (view value.now)) };
}

/// Returns why a value is not of the kind: the fault of its first faulty part, or of the value itself. None if it is of
/// the kind.
pub fn fault_of<'v, T: Explains<'v, F>, F>(
    alloc: Global,
    value: &'v Value,
) -> Mem<Option<Fault<'v>>>
    ensures { IfOk result (λ found. option_map fault_data found ≡ fault_of T.kind T.wanted T.part_fault (view value.now)) }
{
    match T::read(alloc, value) {
        Ok(_) => Ok(None),
        Err(KindError::NoMemory) => Err(NoMemory),
        Err(KindError::WrongKind) => match T::part_fault(alloc, value)? {
            Some(fault) => Ok(Some(fault)),
            None => Ok(Some(Fault::whole(alloc, T::wanted(), value))),
        },
    }
}

/// Returns the fault of the member of this name, which has to be there. A value that is no object is at fault itself.
pub fn member_fault<'v, T: Explains<'v, F>, F>(
    alloc: Global,
    value: &'v Value,
    name: &'v str,
) -> Mem<Option<Fault<'v>>>
    ensures { IfOk result (λ found. option_map fault_data found
        ≡ member_fault T.wanted (fault_of T.kind T.wanted T.part_fault) name.now (view value.now)) }
{
    if !value.is_object() {
        return Ok(Some(Fault::whole(alloc, Wanted::Words("an object"), value)));
    }
    let found = match value.get(name) {
        Some(member) => fault_of::<T, F>(alloc, member)?,
        None => Some(Fault::missing(alloc, T::wanted())),
    };
    inside(found, Step::Key(name))
}

/// Returns the fault of the member of this name, which may be absent or null.
pub fn optional_member_fault<'v, T: Explains<'v, F>, F>(
    alloc: Global,
    value: &'v Value,
    name: &'v str,
) -> Mem<Option<Fault<'v>>>
    ensures { IfOk result (λ found. option_map fault_data found
        ≡ optional_member_fault (fault_of T.kind T.wanted T.part_fault) name.now (view value.now)) }
{
    let found = match present(value, name) {
        Some(member) => fault_of::<T, F>(alloc, member)?,
        None => None,
    };
    inside(found, Step::Key(name))
}

/// Returns the fault of the member of this name, which may be absent. Null is read as a value of the kind.
pub fn given_member_fault<'v, T: Explains<'v, F>, F>(
    alloc: Global,
    value: &'v Value,
    name: &'v str,
) -> Mem<Option<Fault<'v>>>
    ensures { IfOk result (λ found. option_map fault_data found
        ≡ given_member_fault (fault_of T.kind T.wanted T.part_fault) name.now (view value.now)) }
{
    let found = match value.get(name) {
        Some(member) => fault_of::<T, F>(alloc, member)?,
        None => None,
    };
    inside(found, Step::Key(name))
}

/// Returns the fault of the member of this name, which is of its kind and is not allowed. None if it is absent.
pub fn not_allowed<'v>(
    alloc: Global,
    value: &'v Value,
    name: &'v str,
    wanted: &'v str,
) -> Mem<Option<Fault<'v>>>
    ensures { IfOk result (λ found. option_map fault_data found ≡ not_allowed (words wanted.now) name.now (view value.now)) }
{
    match value.get(name) {
        Some(member) => inside(
            Some(Fault::whole(alloc, Wanted::Words(wanted), member)),
            Step::Key(name),
        ),
        None => Ok(None),
    }
}

/// Returns the fault of the first of these values that is not of the kind.
#[tactic(auto, using(crate::proofs::Faulty::faults_more, crate::proofs::Faulty::fault_first, crate::proofs::Faulty::faults_end))]
pub fn items_fault<'v, T: Explains<'v, F>, F>(
    alloc: Global,
    values: &'v [Value],
) -> Mem<Option<Fault<'v>>>
    ensures { IfOk result (λ found. option_map fault_data found
        ≡ items_fault (fault_of T.kind T.wanted T.part_fault) 0 (items_view values.now)) }
{
    'values: for index in 0..values.len() {
        if let Some(fault) = fault_of::<T, F>(alloc, &values[index])? {
            return inside(Some(fault), Step::Index(index));
        }
    }
    Ok(None)
}

/// Returns the fault of the first value of an array that is not of the kind. None if the value is no array.
pub fn elements_fault<'v, T: Explains<'v, F>, F>(
    alloc: Global,
    value: &'v Value,
) -> Mem<Option<Fault<'v>>>
    ensures { IfOk result (λ found. option_map fault_data found
        ≡ elements_fault (fault_of T.kind T.wanted T.part_fault) (view value.now)) }
{
    match value.as_array() {
        Some(values) => items_fault::<T, F>(alloc, values.as_slice()),
        None => Ok(None),
    }
}

/// Returns the value of this index in the array that is the member of this name.
pub fn value_at<'v>(value: &'v Value, name: &str, number: usize) -> Option<&'v Value>
    ensures { option_map (λ v. view v.now) result ≡ value_at name.now number (view value.now) }
{
    value.get(name)?.get(number)
}

/// Returns the fault of that value as one of the value that has the array. `found` is the fault of that value itself.
pub fn inside_at<'v>(
    found: Option<Fault<'v>>,
    name: &'v str,
    number: usize,
) -> Mem<Option<Fault<'v>>>
    ensures { IfOk result (λ outer. option_map fault_data outer
        ≡ inside (key name.entry.now) (inside (index number) (option_map fault_data found.entry))) }
{
    inside(inside(found, Step::Index(number))?, Step::Key(name))
}
