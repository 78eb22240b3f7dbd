//! Bars that are shown.

use crate::bar::Bar;

/// A bar and where it is.
#[derive(Clone, Copy)]
pub(crate) struct ShownBar<'b, 'a> {
    /// Its first column in a vertical chart, its first row in a horizontal one.
    pub(crate) at: u16,
    pub(crate) bar: &'b Bar<'a>,
}
