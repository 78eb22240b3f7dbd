//! Fractions: `[num, den]`, and shares, which are at most 1.

ghost use Rattle.tui_schema.specs.Kinds.Fraction.{fraction_of};

use crate::field::Field;
use crate::kinds::member::{part_fault, read};
use serde_json::Value;
use std::alloc::Global;
use tui_cells::Mem;
use tui_json::{Explains, Fault, Kind, KindError, Wanted};
use tui_layout::Fraction;

impl<'v> Kind<'v, Field> for Fraction {
    ghost use Rattle.tui_layout.specs.declared.fraction.Fraction.{Fraction};

    ghost AsData = { Fraction };

    ghost as_data = { λ fraction. fraction };

    ghost kind = { fraction_of };

    #[tactic(auto, unfolding(crate::specs::Kinds::Fraction::fraction_of))]
    fn read(alloc: Global, value: &'v Value) -> Result<Fraction, KindError> {
        let (num, den): (u64, u64) = read(alloc, value)?;
        Ok(Fraction::new(num, den))
    }
}

/// A fraction that is at most 1, with a denominator that is not 0.
#[derive(Drop)]
pub(crate) struct Share(pub Fraction);

impl<'v> Kind<'v, Field> for Share {
    ghost use Rattle.tui_layout.specs.declared.fraction.Fraction.{Fraction};
    ghost use Rattle.tui_schema.specs.Kinds.Fraction.{share_of};

    ghost AsData = { Fraction };

    ghost as_data = { λ share. share.0 };

    ghost kind = { share_of };

    #[tactic(auto, unfolding(crate::specs::Kinds::Fraction::share_of))]
    fn read(alloc: Global, value: &'v Value) -> Result<Share, KindError> {
        let fraction: Fraction = read(alloc, value)?;
        if 0 < fraction.den && fraction.num <= fraction.den {
            Ok(Share(fraction))
        } else {
            Err(KindError::WrongKind)
        }
    }
}

impl<'v> Explains<'v, Field> for Share {
    ghost use Rattle.tui_schema.specs.Faults.{a_share, fraction_parts};

    ghost wanted = { a_share };

    ghost part_fault = { fraction_parts };

    fn wanted() -> Wanted<'v> {
        Wanted::Words(
            "`[num, den]`, whole numbers from 0, below 2^64, the first at most the second, and the \
             second not 0",
        )
    }

    fn part_fault(alloc: Global, value: &'v Value) -> Mem<Option<Fault<'v>>> {
        part_fault::<(u64, u64)>(alloc, value)
    }
}
