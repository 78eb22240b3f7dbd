//! What happens to the values of a run at its end.

use std::mem::forget;

/// Whether the values of a run are dropped at its end, or leaked. A process that exits at once can leave its memory to
/// the system.
// This is passed to the functions that own a run's large values at its end, since only they can leak them.
#[derive(Clone, Copy, Debug, PartialEq, Eq)]
pub enum Cleanup {
    /// The values are dropped: the caller continues.
    Dropped,
    /// The values are leaked: the process exits.
    Left,
}

impl Cleanup {
    /// Drops a value, or leaks it.
    pub fn dispose_of<T: Drop>(self, value: T) {
        match self {
            Cleanup::Dropped => drop(value),
            Cleanup::Left => forget(value),
        }
    }
}
