//! Which constraints share the columns that are left.

ghost use Rattle.std.specs.Prelude.{◌≡◌, ◌*◌, ◌≤◌, length, sum_by};
ghost use Rattle.tui_layout.specs.Sharing.{sharing_of, weight};

use crate::constraint::Constraint;

/// Which constraints share the columns that are left after each has taken what it asks for.
#[derive(Clone, Copy)]
pub(crate) enum Sharing {
    /// Each `Fill`, by its weight.
    Weights,
    /// Each `Fill`, equally.
    Fills,
    /// Each `Min`, equally. Without a `Min`, none.
    Mins,
}

impl Sharing {
    pub(crate) fn new(constraints: &[Constraint]) -> Sharing
        ensures { result ≡ sharing_of constraints.now }
    {
        if Sharing::Weights.sum(constraints) > 0 {
            Sharing::Weights
        } else if Sharing::Fills.sum(constraints) > 0 {
            Sharing::Fills
        } else {
            Sharing::Mins
        }
    }

    pub(crate) fn weight(self, constraint: Constraint) -> u16
        ensures { result ≡ weight self constraint }
    {
        match (self, constraint) {
            (Sharing::Weights, Constraint::Fill(weight)) => weight,
            (Sharing::Fills, Constraint::Fill(_weight)) => 1,
            (Sharing::Mins, Constraint::Min(_width)) => 1,
            _ => 0,
        }
    }

    /// Returns the sum of the weights of the constraints.
    pub(crate) fn sum(self, constraints: &[Constraint]) -> u128
        ensures sum { result ≡ sum_by (weight self) constraints.now }
        ensures small { result ≤ length constraints.now * 65535 }
    {
        let mut sum = 0;
        for constraint in constraints {
            sum += u128::from(self.weight(*constraint));
        }
        sum
    }
}
