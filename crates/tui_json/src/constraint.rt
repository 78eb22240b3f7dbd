//! Column widths: a number, or an object with one of several members.

ghost use Rattle.std.specs.Prelude.{◌≡◌};
ghost use Rattle.serde_json.specs.View.{view};
ghost use Rattle.tui_json.specs.Constraint.{constraint_of, ratio_of};

use crate::explains::{Explains, given_member_fault};
use crate::fault::Fault;
use crate::kind::{Kind, KindError};
use crate::number::{u16_of, u32_of};
use crate::wanted::Wanted;
use serde_json::Value;
use std::alloc::Global;
use tui_cells::Mem;
use tui_layout::Constraint;

#[tactic(auto, using(crate::proofs::Arrays::pair_other), unfolding(crate::specs::Members::pair_of))]
fn ratio_of(value: &Value) -> Option<Constraint>
    ensures { result ≡ ratio_of (view value.now) }
{
    let [part, whole] = value.as_array()?.as_slice() else {
        return None;
    };
    Some(Constraint::Ratio(u32_of(part)?, u32_of(whole)?))
}

/// Returns the constraint that the value is. A whole number below 65536 is a `Length`. In an object, the first of the
/// keys `length`, `min`, `max`, `percentage`, `fill` and `ratio` that it has decides, even if its value is null.
/// Returns None exactly if the value is no such constraint. A percentage may be above 100. Does not allocate.
#[tactic(auto, unfolding(crate::specs::Constraint::constraint_of))]
pub fn constraint_of(value: &Value) -> Option<Constraint>
    ensures { result ≡ constraint_of (view value.now) }
{
    if let Some(width) = value.get("length") {
        Some(Constraint::Length(u16_of(width)?))
    } else if let Some(width) = value.get("min") {
        Some(Constraint::Min(u16_of(width)?))
    } else if let Some(width) = value.get("max") {
        Some(Constraint::Max(u16_of(width)?))
    } else if let Some(percent) = value.get("percentage") {
        Some(Constraint::Percentage(u16_of(percent)?))
    } else if let Some(weight) = value.get("fill") {
        Some(Constraint::Fill(u16_of(weight)?))
    } else if let Some(ratio) = value.get("ratio") {
        ratio_of(ratio)
    } else {
        Some(Constraint::Length(u16_of(value)?))
    }
}

impl<'v, F> Kind<'v, F> for Constraint {
    ghost use Rattle.tui_layout.specs.declared.constraint.Constraint.{Constraint};

    ghost AsData = { Constraint };

    ghost as_data = { λ constraint. constraint };

    ghost kind = { constraint_of };

    fn read(_alloc: Global, value: &'v Value) -> Result<Constraint, KindError> {
        constraint_of(value).ok_or(KindError::WrongKind)
    }
}

impl<'v, F> Explains<'v, F> for Constraint {
    ghost use Rattle.tui_json.specs.Constraint.{a_constraint, constraint_fault};

    ghost wanted = { a_constraint };

    ghost part_fault = { constraint_fault };

    fn wanted() -> Wanted<'v> {
        Wanted::Words(
            "a whole number from 0 to 65535, or an object with `length`, `min`, `max`, \
             `percentage`, `fill` or `ratio`",
        )
    }

    fn part_fault(alloc: Global, value: &'v Value) -> Mem<Option<Fault<'v>>> {
        let length = given_member_fault::<u16, F>(alloc, value, "length")?;
        let min = given_member_fault::<u16, F>(alloc, value, "min")?;
        let max = given_member_fault::<u16, F>(alloc, value, "max")?;
        let percentage = given_member_fault::<u16, F>(alloc, value, "percentage")?;
        let fill = given_member_fault::<u16, F>(alloc, value, "fill")?;
        let ratio = given_member_fault::<(u32, u32), F>(alloc, value, "ratio")?;
        Ok(length.or(min).or(max).or(percentage).or(fill).or(ratio))
    }
}
