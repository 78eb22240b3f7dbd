//! Enums, read by the names of their variants.

ghost use Rattle.std.specs.Prelude.{◌≡◌, ℕ, List, Result, map};
ghost use Rattle.std.specs.Result.{result_ok};
ghost use Rattle.serde_json.specs.View.{view};
ghost use Rattle.tui_cells.specs.declared.error.ParseError.{ParseError};
ghost use Rattle.tui_json.specs.Kinds.{Reads};
ghost use Rattle.tui_json.specs.Members.{optional_member};
ghost use Rattle.tui_json.specs.Refusals.{Gives, optional};
ghost use Rattle.tui_json.specs.Named.{Names, listed_names, named_of, reads_named, value_named};
ghost use Rattle.tui_json.specs.Names.{directions, flexes, highlight_spacings, merge_strategies};

use crate::explains::Explains;
use crate::fault::Fault;
use crate::fields::{Fields, optional};
use crate::input_error::InputError;
use crate::kind::{Kind, KindError};
use crate::members::optional_member;
use crate::wanted::Wanted;
use serde_json::Value;
use std::alloc::Global;
use std::str::FromStr;
use tui_cells::{Mem, MergeStrategy, ParseError};
use tui_layout::{Direction, Flex, HighlightSpacing};

/// An enum that is read from the name of a variant by its `FromStr`, for the fields `F`.
pub trait Named<F>: FromStr<Err = ParseError> {
    // The values and their names.
    ghost names: { Names Self };

    /// Returns the names in words: `a`, `b` or `c`.
    fn listed() -> &'static str
        ensures { result.now ≡ listed_names (map names.name names.values) };

    // Parsing a string returns the value of this name.
    ghost reads: { (text : List ℕ) (answer : Result Self ParseError) → Self.FromStr.from_str_gives text answer
        → result_ok answer ≡ value_named names text };
}

/// Returns the value of the enum that has this name. Returns None if the JSON value is no string, or no name. Does not
/// allocate.
pub fn by_name<T: Named<F>, F>(value: &Value) -> Option<T>
    ensures { result ≡ named_of T.names (view value.now) }
{
    value.as_str()?.parse().ok()
}

/// A value of such an enum, as the kind that is read from its name. Reading it does not allocate.
#[derive(Drop)]
pub struct ByName<T>(pub T);

impl<'v, F, T: Named<F>> Kind<'v, F> for ByName<T> {
    ghost AsData = { T };

    ghost as_data = { λ value. value.0 };

    ghost kind = { named_of T.names };

    fn read(_alloc: Global, value: &'v Value) -> Result<ByName<T>, KindError> {
        match by_name::<T, F>(value) {
            Some(value) => Ok(ByName(value)),
            None => Err(KindError::WrongKind),
        }
    }
}

impl<'v, F, T: Named<F> + Drop> Explains<'v, F> for ByName<T> {
    ghost use Rattle.tui_json.specs.Faults.{no_parts, words};

    ghost wanted = { words (listed_names (map T.names.name T.names.values)) };

    ghost part_fault = { no_parts };

    fn wanted() -> Wanted<'v> {
        Wanted::Words(T::listed())
    }

    fn part_fault(_alloc: Global, _value: &'v Value) -> Mem<Option<Fault<'v>>> {
        Ok(None)
    }
}

/// Reads the member of this name, which may be absent or null, as a value of such an enum.
pub fn optional_named_member<'v, T: Named<F>, F>(
    alloc: Global,
    value: &'v Value,
    name: &str,
) -> Result<Option<T>, KindError>
    ensures { Reads (λ read. read) result (optional_member (named_of T.names) name.now (view value.now)) }
{
    match optional_member::<ByName<T>, F>(alloc, value, name)? {
        Some(ByName(value)) => Ok(Some(value)),
        None => Ok(None),
    }
}

/// Reads a field that may be absent or null, as a value of such an enum. Rejects the input if the field is there and is
/// no name of one.
pub fn optional_named<'v, T: Named<F>, F: Fields>(
    alloc: Global,
    at: Option<usize>,
    field: F,
    value: &'v Value,
) -> Result<Option<T>, InputError<F::Refusal>>
    ensures { Gives (λ read. read) result (optional (named_of T.names) (F.key field) (F.refusal at field) (view value.now)) }
{
    match optional::<ByName<T>, F>(alloc, at, field, value)? {
        Some(ByName(value)) => Ok(Some(value)),
        None => Ok(None),
    }
}

impl<F> Named<F> for Direction {
    ghost names = { directions };

    ghost reads = { reads_named directions };

    #[tactic(auto, unfolding(crate::specs::Named::listed_names))]
    fn listed() -> &'static str {
        "`Horizontal` or `Vertical`"
    }
}

impl<F> Named<F> for Flex {
    ghost names = { flexes };

    ghost reads = { reads_named flexes };

    #[tactic(auto, unfolding(crate::specs::Named::listed_names))]
    fn listed() -> &'static str {
        "`Legacy`, `Start`, `End`, `Center`, `SpaceBetween`, `SpaceEvenly` or `SpaceAround`"
    }
}

impl<F> Named<F> for HighlightSpacing {
    ghost names = { highlight_spacings };

    ghost reads = { reads_named highlight_spacings };

    #[tactic(auto, unfolding(crate::specs::Named::listed_names))]
    fn listed() -> &'static str {
        "`Always`, `WhenSelected` or `Never`"
    }
}

impl<F> Named<F> for MergeStrategy {
    ghost names = { merge_strategies };

    ghost reads = { reads_named merge_strategies };

    #[tactic(auto, unfolding(crate::specs::Named::listed_names))]
    fn listed() -> &'static str {
        "`Replace`, `Exact` or `Fuzzy`"
    }
}
