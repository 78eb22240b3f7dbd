//! The fields of an input. They are tested in order, and the first whose test fails rejects the input.

ghost use Rattle.std.specs.Prelude.{◌≡◌, ℕ, List, Option, option_map};
ghost use Rattle.serde_json.specs.Find.{get};
ghost use Rattle.serde_json.specs.View.{view};
ghost use Rattle.tui_json.specs.Refusals.{Gives, given, optional, or_reject, refused, required, or_out_of_memory};

use crate::input_error::InputError;
use crate::kind::{Kind, KindError};
use crate::members::{given_member, member, optional_member};
use serde_json::Value;
use std::alloc::Global;

/// The fields of an input, usually an enum of their names, and the error that rejects an input.
pub trait Fields: Copy {
    /// The error that rejects a value: usually one of these fields, and the number of the item that has it.
    type Refusal;

    // The key of a field in JSON.
    ghost key: { Self → List ℕ };

    // The error for a field and the number of its item, if it is an item's.
    ghost refusal: { Option ℕ → Self → Self.Refusal };

    /// Returns the key of the field in JSON.
    fn key(&self) -> &'static str
        ensures { result.now ≡ key self.now };

    /// Returns the error if this field, of the item `at`, is missing though required, or is not of its kind.
    fn refusal(self, at: Option<usize>) -> Self::Refusal
        ensures { result ≡ refusal at self };
}

/// Turns the reason why a field wasn't read into an error: the rejection of this field of the item `at`, or `NoMemory`.
pub fn error_at<F: Fields>(field: F, at: Option<usize>, why: KindError) -> InputError<F::Refusal>
    ensures { refused result ≡ or_out_of_memory why (F.refusal at field) }
{
    match why {
        KindError::WrongKind => InputError::Refused(field.refusal(at)),
        KindError::NoMemory => InputError::NoMemory,
    }
}

/// Reads a field that has to be there, of the input or of the item `at`. Rejects the input if the field is absent or
/// not of its kind. A value that is no object has no fields.
pub fn required<'v, T: Kind<'v, F>, F: Fields>(
    alloc: Global,
    at: Option<usize>,
    field: F,
    value: &'v Value,
) -> Result<T, InputError<F::Refusal>>
    ensures { Gives T.as_data result (required T.kind (F.key field) (F.refusal at field) (view value.now)) }
{
    match member::<T, F>(alloc, value, field.key()) {
        Ok(found) => Ok(found),
        Err(error) => Err(error_at(field, at, error)),
    }
}

/// Reads a field that may be absent or null, which gives None. Rejects the input if the field is there and not of its
/// kind.
pub fn optional<'v, T: Kind<'v, F>, F: Fields>(
    alloc: Global,
    at: Option<usize>,
    field: F,
    value: &'v Value,
) -> Result<Option<T>, InputError<F::Refusal>>
    ensures { Gives (option_map T.as_data) result (optional T.kind (F.key field) (F.refusal at field) (view value.now)) }
{
    match optional_member::<T, F>(alloc, value, field.key()) {
        Ok(found) => Ok(found),
        Err(error) => Err(error_at(field, at, error)),
    }
}

/// Reads a field that may be absent, which gives None, and for which null is a value. Rejects the input if the field is
/// there and not of its kind.
pub fn given<'v, T: Kind<'v, F>, F: Fields>(
    alloc: Global,
    at: Option<usize>,
    field: F,
    value: &'v Value,
) -> Result<Option<T>, InputError<F::Refusal>>
    ensures { Gives (option_map T.as_data) result (given T.kind (F.key field) (F.refusal at field) (view value.now)) }
{
    match given_member::<T, F>(alloc, value, field.key()) {
        Ok(found) => Ok(found),
        Err(error) => Err(error_at(field, at, error)),
    }
}

/// Returns the member of this name, whatever it is, even null. Fails with `absent` if there is none. Does not allocate.
pub fn any_member<'v, R: Copy>(
    value: &'v Value,
    name: &str,
    absent: R,
) -> Result<&'v Value, InputError<R>>
    ensures { Gives (λ member. view member.now) result (or_reject absent (get name.now (view value.now))) }
{
    match value.get(name) {
        Some(member) => Ok(member),
        None => Err(InputError::Refused(absent)),
    }
}
