//! Whole numbers and booleans.

ghost use Rattle.std.specs.Prelude.{◌≡◌};
ghost use Rattle.serde_json.specs.View.{view};
ghost use Rattle.tui_json.specs.Number.{u16_of, u32_of, within};

use crate::explains::Explains;
use crate::fault::Fault;
use crate::kind::{Kind, KindError};
use crate::wanted::Wanted;
use serde_json::Value;
use std::alloc::Global;
use tui_cells::Mem;

impl<'v, F> Kind<'v, F> for u64 {
    ghost use Rattle.std.specs.Prelude.{ℕ};
    ghost use Rattle.tui_json.specs.Number.{u64_of};

    ghost AsData = { ℕ };

    ghost as_data = { λ n. n };

    ghost kind = { u64_of };

    fn read(_alloc: Global, value: &'v Value) -> Result<u64, KindError> {
        value.as_u64().ok_or(KindError::WrongKind)
    }
}

impl<'v, F> Explains<'v, F> for u64 {
    ghost use Rattle.std.specs.Prelude.{codes};
    ghost use Rattle.tui_json.specs.Faults.{no_parts, words};

    ghost wanted = { words (codes "a whole number from 0, below 2^64") };

    ghost part_fault = { no_parts };

    fn wanted() -> Wanted<'v> {
        Wanted::Words("a whole number from 0, below 2^64")
    }

    fn part_fault(_alloc: Global, _value: &'v Value) -> Mem<Option<Fault<'v>>> {
        Ok(None)
    }
}

/// Returns the number, if it is a whole one below 2^16.
#[tactic(auto, unfolding(crate::specs::Number::u16_of))]
pub(crate) fn u16_of(value: &Value) -> Option<u16>
    ensures { result ≡ u16_of (view value.now) }
{
    match value.as_u64() {
        Some(number) if number < 65536 => Some(number as u16),
        _ => None,
    }
}

/// Returns the number, if it is a whole one below 2^32.
#[tactic(auto, unfolding(crate::specs::Number::u32_of))]
pub(crate) fn u32_of(value: &Value) -> Option<u32>
    ensures { result ≡ u32_of (view value.now) }
{
    match value.as_u64() {
        Some(number) if number < 4294967296 => Some(number as u32),
        _ => None,
    }
}

impl<'v, F> Kind<'v, F> for u16 {
    ghost use Rattle.std.specs.Prelude.{ℕ};

    ghost AsData = { ℕ };

    ghost as_data = { λ n. n };

    ghost kind = { u16_of };

    fn read(_alloc: Global, value: &'v Value) -> Result<u16, KindError> {
        u16_of(value).ok_or(KindError::WrongKind)
    }
}

impl<'v, F> Explains<'v, F> for u16 {
    ghost use Rattle.tui_json.specs.Faults.{no_parts, number};

    ghost wanted = { number 0 65535 };

    ghost part_fault = { no_parts };

    fn wanted() -> Wanted<'v> {
        Wanted::Number(0, 65_535)
    }

    fn part_fault(_alloc: Global, _value: &'v Value) -> Mem<Option<Fault<'v>>> {
        Ok(None)
    }
}

impl<'v, F> Kind<'v, F> for u32 {
    ghost use Rattle.std.specs.Prelude.{ℕ};

    ghost AsData = { ℕ };

    ghost as_data = { λ n. n };

    ghost kind = { u32_of };

    fn read(_alloc: Global, value: &'v Value) -> Result<u32, KindError> {
        u32_of(value).ok_or(KindError::WrongKind)
    }
}

impl<'v, F> Explains<'v, F> for u32 {
    ghost use Rattle.tui_json.specs.Faults.{no_parts, number};

    ghost wanted = { number 0 4294967295 };

    ghost part_fault = { no_parts };

    fn wanted() -> Wanted<'v> {
        Wanted::Number(0, 4_294_967_295)
    }

    fn part_fault(_alloc: Global, _value: &'v Value) -> Mem<Option<Fault<'v>>> {
        Ok(None)
    }
}

/// A whole number from `LOW` to `HIGH`. Reading it does not allocate.
#[derive(Drop)]
pub struct Within<const LOW: u16, const HIGH: u16>(pub u16);

impl<'v, F, const LOW: u16, const HIGH: u16> Kind<'v, F> for Within<LOW, HIGH> {
    ghost use Rattle.std.specs.Prelude.{ℕ};

    ghost AsData = { ℕ };

    ghost as_data = { λ n. n.0 };

    ghost kind = { within LOW HIGH };

    #[tactic(auto, unfolding(crate::specs::Number::within))]
    fn read(_alloc: Global, value: &'v Value) -> Result<Within<LOW, HIGH>, KindError> {
        match u16_of(value) {
            Some(number) if LOW <= number && number <= HIGH => Ok(Within(number)),
            _ => Err(KindError::WrongKind),
        }
    }
}

impl<'v, F, const LOW: u16, const HIGH: u16> Explains<'v, F> for Within<LOW, HIGH> {
    ghost use Rattle.tui_json.specs.Faults.{no_parts, number};

    ghost wanted = { number LOW HIGH };

    ghost part_fault = { no_parts };

    fn wanted() -> Wanted<'v> {
        Wanted::Number(LOW as u64, HIGH as u64)
    }

    fn part_fault(_alloc: Global, _value: &'v Value) -> Mem<Option<Fault<'v>>> {
        Ok(None)
    }
}

impl<'v, F> Kind<'v, F> for i8 {
    ghost use Rattle.std.specs.Prelude.{ℤ};
    ghost use Rattle.tui_json.specs.Number.{i8_of};

    ghost AsData = { ℤ };

    ghost as_data = { λ n. n };

    ghost kind = { i8_of };

    #[tactic(auto, unfolding(crate::specs::Number::i8_of))]
    fn read(_alloc: Global, value: &'v Value) -> Result<i8, KindError> {
        match value.as_i64() {
            Some(number) => i8::try_from(number).map_err(|_| KindError::WrongKind),
            None => Err(KindError::WrongKind),
        }
    }
}

impl<'v, F> Explains<'v, F> for i8 {
    ghost use Rattle.std.specs.Prelude.{codes};
    ghost use Rattle.tui_json.specs.Faults.{no_parts, words};

    ghost wanted = { words (codes "a whole number from -128 to 127") };

    ghost part_fault = { no_parts };

    fn wanted() -> Wanted<'v> {
        Wanted::Words("a whole number from -128 to 127")
    }

    fn part_fault(_alloc: Global, _value: &'v Value) -> Mem<Option<Fault<'v>>> {
        Ok(None)
    }
}

impl<'v, F> Kind<'v, F> for i16 {
    ghost use Rattle.std.specs.Prelude.{ℤ};
    ghost use Rattle.tui_json.specs.Number.{i16_of};

    ghost AsData = { ℤ };

    ghost as_data = { λ n. n };

    ghost kind = { i16_of };

    #[tactic(auto, unfolding(crate::specs::Number::i16_of))]
    fn read(_alloc: Global, value: &'v Value) -> Result<i16, KindError> {
        match value.as_i64() {
            Some(number) => i16::try_from(number).map_err(|_| KindError::WrongKind),
            None => Err(KindError::WrongKind),
        }
    }
}

impl<'v, F> Explains<'v, F> for i16 {
    ghost use Rattle.std.specs.Prelude.{codes};
    ghost use Rattle.tui_json.specs.Faults.{no_parts, words};

    ghost wanted = { words (codes "a whole number from -32768 to 32767") };

    ghost part_fault = { no_parts };

    fn wanted() -> Wanted<'v> {
        Wanted::Words("a whole number from -32768 to 32767")
    }

    fn part_fault(_alloc: Global, _value: &'v Value) -> Mem<Option<Fault<'v>>> {
        Ok(None)
    }
}

impl<'v, F> Kind<'v, F> for i32 {
    ghost use Rattle.std.specs.Prelude.{ℤ};
    ghost use Rattle.tui_json.specs.Number.{i32_of};

    ghost AsData = { ℤ };

    ghost as_data = { λ n. n };

    ghost kind = { i32_of };

    #[tactic(auto, unfolding(crate::specs::Number::i32_of))]
    fn read(_alloc: Global, value: &'v Value) -> Result<i32, KindError> {
        match value.as_i64() {
            Some(number) => i32::try_from(number).map_err(|_| KindError::WrongKind),
            None => Err(KindError::WrongKind),
        }
    }
}

impl<'v, F> Explains<'v, F> for i32 {
    ghost use Rattle.std.specs.Prelude.{codes};
    ghost use Rattle.tui_json.specs.Faults.{no_parts, words};

    ghost wanted = { words (codes "a signed 32-bit whole number") };

    ghost part_fault = { no_parts };

    fn wanted() -> Wanted<'v> {
        Wanted::Words("a signed 32-bit whole number")
    }

    fn part_fault(_alloc: Global, _value: &'v Value) -> Mem<Option<Fault<'v>>> {
        Ok(None)
    }
}

impl<'v, F> Kind<'v, F> for bool {
    ghost use Rattle.std.specs.Prelude.{Bool};
    ghost use Rattle.serde_json.specs.Find.{as_bool};

    ghost AsData = { Bool };

    ghost as_data = { λ b. b };

    ghost kind = { as_bool };

    fn read(_alloc: Global, value: &'v Value) -> Result<bool, KindError> {
        value.as_bool().ok_or(KindError::WrongKind)
    }
}

impl<'v, F> Explains<'v, F> for bool {
    ghost use Rattle.std.specs.Prelude.{codes};
    ghost use Rattle.tui_json.specs.Faults.{no_parts, words};

    ghost wanted = { words (codes "true or false") };

    ghost part_fault = { no_parts };

    fn wanted() -> Wanted<'v> {
        Wanted::Words("true or false")
    }

    fn part_fault(_alloc: Global, _value: &'v Value) -> Mem<Option<Fault<'v>>> {
        Ok(None)
    }
}
