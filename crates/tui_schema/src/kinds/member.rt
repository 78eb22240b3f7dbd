//! Values and the members of objects, as kinds of the schema.

ghost use Rattle.std.specs.Prelude.{◌≡◌, IfOk, option_map};
ghost use Rattle.serde_json.specs.View.{view};
ghost use Rattle.tui_json.specs.Faults.{elements_fault, fault_data, fault_of, member_fault, optional_member_fault};
ghost use Rattle.tui_json.specs.Kinds.{Reads};
ghost use Rattle.tui_json.specs.Members.{member, optional_member};
ghost use Rattle.tui_json.specs.Named.{named_of};
ghost use Rattle.tui_schema.specs.Faults.{named_fault};

use crate::field::Field;
use serde_json::Value;
use std::alloc::Global;
use tui_cells::Mem;
use tui_json::{ByName, Explains, Fault, Kind, KindError, Named};

/// Reads a value as a kind.
pub(crate) fn read<'v, T: Kind<'v, Field>>(alloc: Global, value: &'v Value) -> Result<T, KindError>
    ensures { Reads T.as_data result (T.kind (view value.now)) }
{
    T::read(alloc, value)
}

/// Reads the member of this name, which has to be there. A value that is no object has no members.
pub(crate) fn member<'v, T: Kind<'v, Field>>(
    alloc: Global,
    value: &'v Value,
    name: &str,
) -> Result<T, KindError>
    ensures { Reads T.as_data result (member T.kind name.now (view value.now)) }
{
    tui_json::member::<T, Field>(alloc, value, name)
}

/// Reads the member of this name, which may be absent or null.
pub(crate) fn optional_member<'v, T: Kind<'v, Field>>(
    alloc: Global,
    value: &'v Value,
    name: &str,
) -> Result<Option<T>, KindError>
    ensures { Reads (option_map T.as_data) result (optional_member T.kind name.now (view value.now)) }
{
    tui_json::optional_member::<T, Field>(alloc, value, name)
}

/// Reads the member of this name, which may be absent or null, as an enum by the name of its variant.
pub(crate) fn optional_named_member<'v, T: Named<Field>>(
    alloc: Global,
    value: &'v Value,
    name: &str,
) -> Result<Option<T>, KindError>
    ensures { Reads (λ read. read) result (optional_member (named_of T.names) name.now (view value.now)) }
{
    tui_json::optional_named_member::<T, Field>(alloc, value, name)
}

/// Returns the fault of the member of this name, which has to be there.
pub(crate) fn member_fault<'v, T: Explains<'v, Field>>(
    alloc: Global,
    value: &'v Value,
    name: &'v str,
) -> Mem<Option<Fault<'v>>>
    ensures { IfOk result (λ found. option_map fault_data found
        ≡ member_fault T.wanted (fault_of T.kind T.wanted T.part_fault) name.now (view value.now)) }
{
    tui_json::member_fault::<T, Field>(alloc, value, name)
}

/// Returns the fault of the member of this name, which may be absent or null.
pub(crate) fn optional_member_fault<'v, T: Explains<'v, Field>>(
    alloc: Global,
    value: &'v Value,
    name: &'v str,
) -> Mem<Option<Fault<'v>>>
    ensures { IfOk result (λ found. option_map fault_data found
        ≡ optional_member_fault (fault_of T.kind T.wanted T.part_fault) name.now (view value.now)) }
{
    tui_json::optional_member_fault::<T, Field>(alloc, value, name)
}

/// Returns the fault of the member of this name, which may be absent or null, and is a variant of an enum.
pub(crate) fn named_fault<'v, T: Named<Field> + Drop>(
    alloc: Global,
    value: &'v Value,
    name: &'v str,
) -> Mem<Option<Fault<'v>>>
    ensures { IfOk result (λ found. option_map fault_data found
        ≡ optional_member_fault (named_fault T.names) name.now (view value.now)) }
{
    tui_json::optional_member_fault::<ByName<T>, Field>(alloc, value, name)
}

/// Returns the fault of the first value of an array that is not of the kind. None if the value is no array.
pub(crate) fn elements_fault<'v, T: Explains<'v, Field>>(
    alloc: Global,
    value: &'v Value,
) -> Mem<Option<Fault<'v>>>
    ensures { IfOk result (λ found. option_map fault_data found
        ≡ elements_fault (fault_of T.kind T.wanted T.part_fault) (view value.now)) }
{
    tui_json::elements_fault::<T, Field>(alloc, value)
}

/// Returns the fault of the first part of the value that has one, where the value should be of this kind.
pub(crate) fn part_fault<'v, T: Explains<'v, Field>>(
    alloc: Global,
    value: &'v Value,
) -> Mem<Option<Fault<'v>>>
    ensures { IfOk result (λ found. option_map fault_data found ≡ T.part_fault (view value.now)) }
{
    T::part_fault(alloc, value)
}
