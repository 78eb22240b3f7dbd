//! The orders in which leaves are drawn.

ghost use Rattle.std.specs.Prelude.{◌≡◌, IfOk, reverse};
ghost use Rattle.std.specs.List.{range_with_len};
ghost use Rattle.tui_panes_run.specs.Order.{numbers_of};

use std::alloc::Global;
use tui_cells::Mem;

/// The order in which leaves are drawn.
#[derive(Clone, Copy, Debug, PartialEq, Eq)]
pub enum Order {
    FirstToLast,
    LastToFirst,
}

impl Order {
    /// Returns the numbers of this many leaves in this order.
    pub(crate) fn numbers(self, alloc: Global, count: usize) -> Mem<Vec<usize>>
        ensures { IfOk result (λ numbers. numbers.items ≡ numbers_of self count) }
    {
        match self {
            Order::FirstToLast => first_to_last(alloc, count),
            Order::LastToFirst => last_to_first(alloc, count),
        }
    }
}

fn first_to_last(alloc: Global, count: usize) -> Mem<Vec<usize>>
    ensures { IfOk result (λ numbers. numbers.items ≡ range_with_len 0 count) }
{
    Ok((0..count).collect(alloc)?)
}

fn last_to_first(alloc: Global, count: usize) -> Mem<Vec<usize>>
    ensures { IfOk result (λ numbers. numbers.items ≡ reverse (range_with_len 0 count)) }
{
    let mut numbers = first_to_last(alloc, count)?;
    numbers.reverse();
    Ok(numbers)
}
