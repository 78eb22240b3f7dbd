//! How wide a column should be.

ghost use Rattle.std.specs.Prelude.{◌≡◌, min};
ghost use Rattle.tui_layout.specs.Constraint.{requested_width};

/// How wide a column should be, in columns of cells.
#[derive(Clone, Copy, Debug, PartialEq, Eq, Hash)]
pub enum Constraint {
    /// This many, plus an equal share of the rest if there is no `Fill`.
    Min(u16),
    /// This many.
    Max(u16),
    /// This many.
    Length(u16),
    /// This percentage of the length, rounded down.
    Percentage(u16),
    /// The first number over the second of the length, rounded down. A second number of 0 counts as 1.
    Ratio(u32, u32),
    /// A part of the rest, by this weight. If all weights are 0, each `Fill` gets an equal part.
    Fill(u16),
}

impl Constraint {
    /// Returns the width that the column takes of the columns that are left: what it asks for, or all of them.
    pub(crate) fn taken(self, length: u16, left: u16) -> u16
        ensures { result ≡ min (requested_width length self) left }
    {
        self.requested_width(length).min(u64::from(left)) as u16
    }

    fn requested_width(self, length: u16) -> u64
        ensures { result ≡ requested_width length self }
    {
        match self {
            Constraint::Min(width) => u64::from(width),
            Constraint::Max(width) => u64::from(width),
            Constraint::Length(width) => u64::from(width),
            Constraint::Percentage(percent) => u64::from(length) * u64::from(percent) / 100,
            Constraint::Ratio(part, whole) => {
                u64::from(length) * u64::from(part) / u64::from(whole.max(1))
            }
            Constraint::Fill(_weight) => 0,
        }
    }
}
