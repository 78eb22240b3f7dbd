//! The arms of border symbols.

ghost use Rattle.std.specs.Prelude.{◌≡◌, ◌<◌};
ghost use Rattle.tui_cells.specs.Chart.{arms_number};
ghost use Rattle.tui_cells.specs.Arms.{joined_arm, joined_arms, lightened_arm, lightened_arms, weight};

/// How far a border symbol reaches one side of its cell.
#[derive(Clone, Copy, Debug, PartialEq, Eq, Hash)]
pub(crate) enum Arm {
    Empty,
    Light,
    Heavy,
    Double,
}

/// How a border symbol reaches the four sides of its cell.
#[derive(Clone, Copy, Debug, PartialEq, Eq, Hash)]
pub(crate) struct Arms {
    pub(crate) up: Arm,
    pub(crate) right: Arm,
    pub(crate) down: Arm,
    pub(crate) left: Arm,
}

impl Arm {
    fn weight(self) -> usize
        ensures is { result ≡ weight self }
        ensures four { result < 4 }
    {
        match self {
            Arm::Empty => 0,
            Arm::Light => 1,
            Arm::Heavy => 2,
            Arm::Double => 3,
        }
    }

    /// Returns the new arm, or the old one if the new symbol has none.
    fn joined(self, new: Arm) -> Arm
        ensures { result ≡ joined_arm self new }
    {
        match new {
            Arm::Empty => self,
            _ => new,
        }
    }

    fn lightened(self) -> Arm
        ensures { result ≡ lightened_arm self }
    {
        match self {
            Arm::Double => Arm::Light,
            _ => self,
        }
    }
}

impl Arms {
    pub(crate) fn joined(self, new: Arms) -> Arms
        ensures { result ≡ joined_arms self new }
    {
        Arms {
            up: self.up.joined(new.up),
            right: self.right.joined(new.right),
            down: self.down.joined(new.down),
            left: self.left.joined(new.left),
        }
    }

    /// Replaces each double arm by a light one.
    pub(crate) fn lightened(self) -> Arms
        ensures { result ≡ lightened_arms self }
    {
        Arms {
            up: self.up.lightened(),
            right: self.right.lightened(),
            down: self.down.lightened(),
            left: self.left.lightened(),
        }
    }

    /// Returns the number of this set of arms among all 256 sets. `up` counts most, `left` least.
    pub(crate) fn number(self) -> usize
        ensures is { result ≡ arms_number self }
        ensures within { result < 256 }
    {
        self.up.weight() * 64
            + self.right.weight() * 16
            + self.down.weight() * 4
            + self.left.weight()
    }
}
