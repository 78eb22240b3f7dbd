//! Sizes in cells.

/// A number of columns and a number of rows.
#[derive(Clone, Copy, Debug, PartialEq, Eq, Hash)]
pub struct Size {
    /// In columns.
    pub width: u16,
    /// In rows.
    pub height: u16,
}
