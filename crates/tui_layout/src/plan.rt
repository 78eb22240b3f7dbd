//! What all columns of a length have in common.

ghost use Rattle.std.specs.Prelude.{◌≡◌, ◌+◌, ◌-◌, ◌*◌, ◌<◌, ◌≤◌, ◌^◌, length as count_of, min, sum_by};
ghost use Rattle.tui_layout.specs.Constraint.{requested_width};
ghost use Rattle.tui_layout.specs.Columns.{plan_of, shift, share};

use crate::constraint::Constraint;
use crate::flex::Flex;
use crate::sharing::Sharing;

/// What all columns of a length have in common.
#[derive(Clone, Copy)]
pub(crate) struct ColumnPlan {
    /// The length that is split.
    pub(crate) length: u16,
    /// The free columns between two columns.
    pub(crate) spacing: u16,
    pub(crate) flex: Flex,
    /// How many columns there are.
    pub(crate) count: usize,
    /// The length without the spacings.
    pub(crate) space: u16,
    /// What is left of the space after each column has taken what it asks for.
    pub(crate) rest: u16,
    /// Which constraints share the rest.
    pub(crate) sharing: Sharing,
    /// The sum of the weights of all columns.
    pub(crate) weights: u128,
}

impl ColumnPlan {
    pub(crate) fn new(
        length: u16,
        spacing: u16,
        constraints: &[Constraint],
        flex: Flex,
    ) -> ColumnPlan
        ensures plan { result ≡ plan_of length spacing constraints.now flex }
        ensures small { result.weights ≤ count_of constraints.now * 65535 }
    {
        let count = constraints.len();
        let space = space_of(length, spacing, count);
        let sharing = Sharing::new(constraints);
        ColumnPlan {
            length,
            spacing,
            flex,
            count,
            space,
            rest: rest_of(length, space, constraints),
            sharing,
            weights: sharing.sum(constraints),
        }
    }

    /// Returns what column `i` gets of the rest, if the columns before it weigh `before` and it weighs `weight`.
    #[tactic(auto, using(crate::proofs::Shares::share_small), unfolding(crate::specs::Columns::share))]
    pub(crate) fn share(self, i: usize, before: u128, weight: u16) -> u128
        requires place { i < self.count }
        requires within { before + weight ≤ self.weights }
        requires small { self.weights < 2 ^ 100 }
        ensures share { result ≡ share self i before weight }
        ensures most { result ≤ self.rest }
    {
        let rest = u128::from(self.rest);
        if self.weights == 0 {
            match self.flex {
                Flex::Legacy if i + 1 == self.count => rest,
                _ => 0,
            }
        } else {
            let through = rest * (before + u128::from(weight)) / self.weights;
            let below = rest * before / self.weights;
            through.saturating_sub(below)
        }
    }

    /// Returns how far column `i` is moved.
    #[tactic(auto, unfolding(crate::specs::Columns::shift))]
    pub(crate) fn shift(self, i: usize) -> u128
        requires { i < self.count }
        ensures shift { result ≡ shift self i }
        ensures small { result < 2 ^ 100 }
    {
        let rest = u128::from(self.rest);
        let i = i as u128;
        let count = self.count as u128;
        if self.weights > 0 {
            return 0;
        }
        match self.flex {
            Flex::Legacy | Flex::Start => 0,
            Flex::End => rest,
            Flex::Center => rest / 2,
            Flex::SpaceBetween if count == 1 => 0,
            Flex::SpaceBetween => rest * i / (count - 1),
            Flex::SpaceEvenly => rest * (i + 1) / (count + 1),
            Flex::SpaceAround => rest * (2 * i + 1) / (2 * count),
        }
    }

    /// Cuts a number of columns at the length.
    pub(crate) fn cut(self, number: u128) -> u16
        ensures { result ≡ min number self.length }
    {
        number.min(u128::from(self.length)) as u16
    }
}

/// Returns the length without the spacings between its columns.
fn space_of(length: u16, spacing: u16, count: usize) -> u16
    ensures { result ≡ length - spacing * (count - 1) }
{
    let gaps = usize::from(spacing).saturating_mul(count.saturating_sub(1));
    if gaps < usize::from(length) {
        length - gaps as u16
    } else {
        0
    }
}

/// Returns what is left of the space after each column has taken what it asks for.
fn rest_of(length: u16, space: u16, constraints: &[Constraint]) -> u16
    ensures { result ≡ space - sum_by (requested_width length) constraints.now }
{
    let mut left = space;
    for constraint in constraints {
        left -= constraint.taken(length, left);
    }
    left
}
