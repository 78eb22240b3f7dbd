//! The members of an object.

ghost use Rattle.std.specs.Prelude.{◌≡◌, option_map, option_and_then};
ghost use Rattle.serde_json.specs.Find.{get};
ghost use Rattle.serde_json.specs.View.{view};
ghost use Rattle.tui_json.specs.Kinds.{Reads};
ghost use Rattle.tui_json.specs.Members.{given_member, member, optional_member, or_null, unless_null};

use crate::explains::Explains;
use crate::fault::Fault;
use crate::kind::{Kind, KindError};
use crate::wanted::Wanted;
use serde_json::Value;
use std::alloc::Global;
use tui_cells::Mem;

/// Returns the member of this name, if it is there and not null.
pub(crate) fn present<'v>(value: &'v Value, name: &str) -> Option<&'v Value>
    ensures { option_map (λ v. view v.now) result ≡ option_and_then unless_null (get name.now (view value.now)) }
{
    value.get(name).filter(|member| !member.is_null())
}

/// Reads the member of this name, which has to be there. Fails with `WrongKind` if it is absent or not of its kind. A
/// value that is no object has no members.
pub fn member<'v, T: Kind<'v, F>, F>(
    alloc: Global,
    value: &'v Value,
    name: &str,
) -> Result<T, KindError>
    ensures { Reads T.as_data result (member T.kind name.now (view value.now)) }
{
    match value.get(name) {
        Some(member) => T::read(alloc, member),
        None => Err(KindError::WrongKind),
    }
}

/// Reads the member of this name, which may be absent or null; both give None.
pub fn optional_member<'v, T: Kind<'v, F>, F>(
    alloc: Global,
    value: &'v Value,
    name: &str,
) -> Result<Option<T>, KindError>
    ensures { Reads (option_map T.as_data) result (optional_member T.kind name.now (view value.now)) }
{
    match present(value, name) {
        Some(member) => Ok(Some(T::read(alloc, member)?)),
        None => Ok(None),
    }
}

/// Reads the member of this name, which may be absent, which gives None. Null is read as a value of the kind.
pub fn given_member<'v, T: Kind<'v, F>, F>(
    alloc: Global,
    value: &'v Value,
    name: &str,
) -> Result<Option<T>, KindError>
    ensures { Reads (option_map T.as_data) result (given_member T.kind name.now (view value.now)) }
{
    match value.get(name) {
        Some(member) => Ok(Some(T::read(alloc, member)?)),
        None => Ok(None),
    }
}

/// Null, which gives None, or a value.
impl<'v, F, T: Kind<'v, F>> Kind<'v, F> for Option<T> {
    ghost use Rattle.std.specs.Prelude.{Option};

    ghost AsData = { Option T.AsData };

    ghost as_data = { option_map T.as_data };

    ghost kind = { or_null T.kind };

    fn read(alloc: Global, value: &'v Value) -> Result<Option<T>, KindError> {
        if value.is_null() {
            Ok(None)
        } else {
            Ok(Some(T::read(alloc, value)?))
        }
    }
}

/// Null is a value of this kind too, which the words leave out.
impl<'v, F, T: Explains<'v, F>> Explains<'v, F> for Option<T> {
    ghost wanted = { T.wanted };

    ghost part_fault = { T.part_fault };

    fn wanted() -> Wanted<'v> {
        T::wanted()
    }

    fn part_fault(alloc: Global, value: &'v Value) -> Mem<Option<Fault<'v>>> {
        T::part_fault(alloc, value)
    }
}
