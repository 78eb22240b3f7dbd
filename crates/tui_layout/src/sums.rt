//! Heights, whose sums only `window` returns.

ghost use Rattle.std.specs.Prelude.{◌≡◌, ◌+◌, ◌≤◌, ◌++◌, [], ◌∷◌, length, sum, take, IfOk, OnOk, OnErr};
ghost use Rattle.tui_layout.specs.Sums.{total};

use crate::steps::Steps;
use std::alloc::Global;
use std::marker::Model;
use std::sync::ledger::Ledger;
use tui_cells::Mem;

/// A list of heights, in rows, stored as the sums of the first ones. `window` is the only way to a sum, and no call
/// returns a height.
#[derive(Drop)]
pub struct Sums {
    sums: Vec<u128>,
}

impl Model for Sums {
    ghost use Rattle.std.specs.Prelude.{ℕ, List};
    ghost use Rattle.tui_layout.specs.Sums.{heights_of, IsRising};

    ghost Value = { List ℕ };

    ghost view = { λ s. heights_of 0 s.sums.items };

    ghost invariant = { λ s. IsRising 0 s.sums.items };
}

impl Sums {
    /// Returns a list without heights. Does not allocate.
    pub fn new(alloc: Global) -> Sums
        ensures { result ≡ [] }
    {
        Sums {
            sums: Vec::new(alloc),
        }
    }

    /// Returns a list without heights, with memory for `capacity` of them. Fails with `NoMemory` if it can't be
    /// allocated.
    pub fn with_capacity(alloc: Global, capacity: usize) -> Mem<Sums>
        ensures { IfOk result (λ sums. sums ≡ []) }
    {
        Ok(Sums {
            sums: Vec::with_capacity(alloc, capacity)?,
        })
    }

    /// Adds a height at the end. Fails with `NoMemory` if memory runs out; the list is then unchanged.
    pub fn push(&mut self, height: u64) -> Mem<()>
        ensures ok { OnOk result (self.new ≡ self.old ++ height ∷ []) }
        ensures err { OnErr result (self.new ≡ self.old) }
    {
        let sum = self.prefix_sum(self.len()) + u128::from(height);
        self.sums.push(sum)?;
        Ok(())
    }

    /// The number of heights.
    pub fn len(&self) -> usize
        ensures { result ≡ length self.now }
    {
        self.sums.len()
    }

    /// Returns the sum of the heights from index `a` up to index `b`, exclusive. Counts one step.
    pub fn window<L: Ledger>(&self, a: usize, b: usize, steps: &mut Steps<L>) -> u128
        requires order { a ≤ b }
        requires within { b ≤ length self.now }
        ensures sum { result ≡ total self.now a b }
        ensures step { steps.new ≡ steps.old + 1 }
    {
        steps.tick();
        self.prefix_sum(b) - self.prefix_sum(a)
    }

    /// Returns the sum of the first `count` heights.
    fn prefix_sum(&self, count: usize) -> u128
        requires { count ≤ length self.now }
        ensures { result ≡ sum (take count self.now) }
    {
        if count == 0 { 0 } else { self.sums[count - 1] }
    }
}
