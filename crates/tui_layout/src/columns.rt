//! Splitting a length into columns.

ghost use Rattle.std.specs.Prelude.{◌≡◌, ◌^◌, ◌<◌, IfOk, length as count_of, sum_by};
ghost use Rattle.tui_layout.specs.Sharing.{weight};
ghost use Rattle.tui_layout.specs.Columns.{AreInOrder, RestIsShared, columns_in, columns_of, space_of};

use crate::constraint::Constraint;
use crate::flex::Flex;
use crate::plan::ColumnPlan;
use crate::segment::Segment;
use std::alloc::Global;
use tui_cells::Mem;

/// Splits a length into columns, one for each constraint, with `spacing` free columns between two. The columns take in
/// turn what they ask for, as far as there is room. What is left then is the rest. The rest goes to the `Fill`
/// constraints by their weights. Without a `Fill` it goes to the `Min` constraints in equal parts. Without either, the
/// flex decides. The columns lie in the length, in order, and do not overlap. Fails with `NoMemory` if the list can't
/// be allocated.
pub fn split(
    alloc: Global,
    length: u16,
    spacing: u16,
    constraints: &[Constraint],
    flex: Flex,
) -> Mem<Vec<Segment>>
    ensures columns { IfOk result (λ columns. columns.items ≡ columns_of length spacing constraints.now flex) }
    ensures order { IfOk result (λ columns. AreInOrder length spacing columns.items) }
    ensures whole { RestIsShared constraints.now flex
        → IfOk result (λ columns. sum_by (λ c. c.width) columns.items ≡ space_of length spacing constraints.now) }
{
    let plan = ColumnPlan::new(length, spacing, constraints, flex);
    placed(alloc, plan, constraints)
}

fn placed(alloc: Global, plan: ColumnPlan, constraints: &[Constraint]) -> Mem<Vec<Segment>>
    requires weights { plan.weights ≡ sum_by (weight plan.sharing) constraints.now }
    requires small { plan.weights < 2 ^ 100 }
    requires count { plan.count ≡ count_of constraints.now }
    ensures { IfOk result (λ columns. columns.items ≡ columns_in plan constraints.now) }
{
    let mut columns = Vec::with_capacity(alloc, constraints.len())?;
    let mut left = plan.space;
    let mut before = 0;
    let mut at = 0;
    'placing: for i in 0..constraints.len() {
        let constraint = constraints[i];
        let taken = constraint.taken(plan.length, left);
        let weight = plan.sharing.weight(constraint);
        let width = u128::from(taken) + plan.share(i, before, weight);
        let start = at + plan.shift(i);
        columns.push(Segment {
            start: plan.cut(start),
            width: plan.cut(width),
        })?;
        left -= taken;
        before += u128::from(weight);
        at = at + width + u128::from(plan.spacing);
    }
    Ok(columns)
}
