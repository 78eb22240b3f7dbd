//! Groups of which at least some bars are shown.

use crate::bar_group::BarGroup;

/// A group and how many of its bars are shown.
#[derive(Clone, Copy, Debug)]
pub(crate) struct ShownGroup<'g, 'a> {
    /// Where the first bar is: a column of a vertical chart, a row of a horizontal one.
    pub(crate) at: u16,
    /// How many of its bars are shown.
    pub(crate) count: usize,
    pub(crate) group: &'g BarGroup<'a>,
}
