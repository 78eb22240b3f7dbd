//! Arrays.

ghost use Rattle.std.specs.Prelude.{◌≡◌, IfOk, List, map, option_map};
ghost use Rattle.serde_json.specs.View.{view, items_view};
ghost use Rattle.serde_json.specs.Find.{as_array};
ghost use Rattle.tui_json.specs.Faults.{fault_data, fault_of, pair_fault};
ghost use Rattle.tui_json.specs.Kinds.{Reads};
ghost use Rattle.tui_json.specs.Members.{each_of, elements_within, list_of, pair_of};

use crate::explains::{Explains, elements_fault, fault_of};
use crate::fault::{Fault, Step, inside};
use crate::kind::{Kind, KindError};
use crate::wanted::Wanted;
use serde_json::Value;
use std::alloc::Global;
use tui_cells::Mem;

/// Returns the values of an array. Fails with `WrongKind` if the value is no array. Does not allocate.
pub fn elements<'v>(value: &'v Value) -> Result<&'v [Value], KindError>
    ensures { Reads (λ v. items_view v.now) result (as_array (view value.now)) }
{
    match value.as_array() {
        Some(values) => Ok(values.as_slice()),
        None => Err(KindError::WrongKind),
    }
}

/// The values of an array of at least `LEAST` and at most `MOST` values. Reading it does not allocate.
#[derive(Drop)]
pub struct Counted<'v, const LEAST: usize, const MOST: usize>(pub &'v [Value]);

impl<'v, F, const LEAST: usize, const MOST: usize> Kind<'v, F> for Counted<'v, LEAST, MOST> {
    ghost use Rattle.serde_json.specs.Data.{Items};

    ghost AsData = { Items };

    ghost as_data = { λ values. items_view values.0.now };

    ghost kind = { elements_within LEAST MOST };

    #[tactic(auto, using(crate::proofs::Arrays::counted), unfolding(crate::specs::Members::elements_within))]
    fn read(_alloc: Global, value: &'v Value) -> Result<Counted<'v, LEAST, MOST>, KindError> {
        let values = elements(value)?;
        if LEAST <= values.len() && values.len() <= MOST {
            Ok(Counted(values))
        } else {
            Err(KindError::WrongKind)
        }
    }
}

impl<'v, F, const LEAST: usize, const MOST: usize> Explains<'v, F> for Counted<'v, LEAST, MOST> {
    ghost use Rattle.std.specs.Prelude.{codes};
    ghost use Rattle.tui_json.specs.Faults.{no_parts, values};

    ghost wanted = { values LEAST MOST (codes "values") };

    ghost part_fault = { no_parts };

    fn wanted() -> Wanted<'v> {
        Wanted::Values(LEAST, MOST, "values")
    }

    fn part_fault(_alloc: Global, _value: &'v Value) -> Mem<Option<Fault<'v>>> {
        Ok(None)
    }
}

/// Reads each of these values as one kind, in order. Fails with `WrongKind` if one of them is not of it.
pub fn each<'v, T: Kind<'v, F> + Drop, F>(
    alloc: Global,
    values: &'v [Value],
) -> Result<Vec<T>, KindError>
    ensures { Reads (λ v. map T.as_data v.items) result (each_of T.kind (items_view values.now)) }
{
    let mut read = Vec::with_capacity(alloc, values.len())?;
    for value in values {
        read.push(T::read(alloc, value)?)?;
    }
    Ok(read)
}

/// An array of values of one kind.
impl<'v, F, T: Kind<'v, F> + Drop> Kind<'v, F> for Vec<T> {
    ghost AsData = { List T.AsData };

    ghost as_data = { λ v. map T.as_data v.items };

    ghost kind = { list_of T.kind };

    #[tactic(auto, unfolding(crate::specs::Members::list_of))]
    fn read(alloc: Global, value: &'v Value) -> Result<Vec<T>, KindError> {
        each(alloc, elements(value)?)
    }
}

impl<'v, F, T: Explains<'v, F>> Explains<'v, F> for Vec<T> {
    ghost use Rattle.std.specs.Prelude.{codes};
    ghost use Rattle.tui_json.specs.Faults.{elements_fault, fault_of, words};

    ghost wanted = { words (codes "an array") };

    ghost part_fault = { elements_fault (fault_of T.kind T.wanted T.part_fault) };

    fn wanted() -> Wanted<'v> {
        Wanted::Words("an array")
    }

    fn part_fault(alloc: Global, value: &'v Value) -> Mem<Option<Fault<'v>>> {
        elements_fault::<T, F>(alloc, value)
    }
}

/// An array of two values.
impl<'v, F, A: Kind<'v, F> + Drop, B: Kind<'v, F>> Kind<'v, F> for (A, B) {
    ghost AsData = { A.AsData × B.AsData };

    ghost as_data = { λ p. (A.as_data p.0, B.as_data p.1) };

    ghost kind = { pair_of A.kind B.kind };

    #[tactic(auto, using(crate::proofs::Arrays::pair_other), unfolding(crate::specs::Members::pair_of))]
    fn read(alloc: Global, value: &'v Value) -> Result<(A, B), KindError> {
        let [first, second] = elements(value)? else {
            return Err(KindError::WrongKind);
        };
        Ok((A::read(alloc, first)?, B::read(alloc, second)?))
    }
}

impl<'v, F, A: Explains<'v, F>, B: Explains<'v, F>> Explains<'v, F> for (A, B) {
    ghost use Rattle.std.specs.Prelude.{option_and_then};
    ghost use Rattle.tui_json.specs.Faults.{two_values};

    ghost wanted = { two_values };

    ghost part_fault = { λ d. option_and_then
        (pair_fault (fault_of A.kind A.wanted A.part_fault) (fault_of B.kind B.wanted B.part_fault)) (as_array d) };

    fn wanted() -> Wanted<'v> {
        Wanted::Words("an array of two values")
    }

    fn part_fault(alloc: Global, value: &'v Value) -> Mem<Option<Fault<'v>>> {
        match value.as_array() {
            Some(values) => pair_fault::<A, B, F>(alloc, values.as_slice()),
            None => Ok(None),
        }
    }
}

/// Returns the fault of the first of two values that has one. None if there are not two values.
#[tactic(auto, using(crate::proofs::Faulty::pair_fault_other))]
fn pair_fault<'v, A: Explains<'v, F>, B: Explains<'v, F>, F>(
    alloc: Global,
    values: &'v [Value],
) -> Mem<Option<Fault<'v>>>
    ensures { IfOk result (λ found. option_map fault_data found
        ≡ pair_fault (fault_of A.kind A.wanted A.part_fault) (fault_of B.kind B.wanted B.part_fault) (items_view values.now)) }
{
    let [first, second] = values else {
        return Ok(None);
    };
    match fault_of::<A, F>(alloc, first)? {
        Some(fault) => inside(Some(fault), Step::Index(0)),
        None => inside(fault_of::<B, F>(alloc, second)?, Step::Index(1)),
    }
}
