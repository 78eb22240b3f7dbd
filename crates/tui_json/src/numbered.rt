//! Arrays of values that have fields of their own; an error names the value by its number.

ghost use Rattle.std.specs.Prelude.{◌≡◌, ◌<◌, ◌^◌, ℕ, Result, map};
ghost use Rattle.serde_json.specs.Data.{Data};
ghost use Rattle.serde_json.specs.View.{view, items_view};
ghost use Rattle.tui_json.specs.Refusals.{Gives, numbered};

use crate::fields::Fields;
use crate::input_error::InputError;
use serde_json::Value;
use std::alloc::Global;

/// A value in an array whose values have fields of their own, such as an item of a scene. An error names the value by
/// its number. `F` are the fields of the crate that reads the array. They let that crate implement this trait for types
/// of other crates.
pub trait Numbered<'v, F: Fields>: Sized {
    /// What is known before the array is read and is used to test its values, such as how many of something they may
    /// refer to.
    type Context: Copy;

    // What a value of this type means, as plain data.
    ghost AsData: { Type 0 };

    ghost as_data: { Self → AsData };

    // The value of this number, or the error of the first of its fields whose test fails.
    ghost tests: { Self.Context → ℕ → Data → Result AsData F.Refusal };

    /// Reads the value with this number in the array. The number is below 2^63, so a reader can add to it. Fails at the
    /// first of its fields that is missing though required, or is not of its kind.
    fn read(
        alloc: Global,
        context: Self::Context,
        number: usize,
        value: &'v Value,
    ) -> Result<Self, InputError<F::Refusal>>
        requires { number < 2 ^ 63 }
        ensures { Gives as_data result (tests context number (view value.now)) };
}

/// Reads each of these values, in order, with its number from 0. Fails with the error of the first one that is
/// rejected.
pub fn each_numbered<'v, T: Numbered<'v, F> + Drop, F: Fields>(
    alloc: Global,
    context: T::Context,
    values: &'v [Value],
) -> Result<Vec<T>, InputError<F::Refusal>>
    ensures { Gives (λ v. map T.as_data v.items) result (numbered (T.tests context) 0 (items_view values.now)) }
{
    let mut read = Vec::with_capacity(alloc, values.len())?;
    for (number, value) in values.iter().enumerate() {
        read.push(T::read(alloc, context, number, value)?)?;
    }
    Ok(read)
}
