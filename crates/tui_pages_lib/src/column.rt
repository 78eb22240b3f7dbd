//! Columns of a report.

use tui_layout::Constraint;

/// A column: the name above it on each page, and its requested width.
#[derive(Clone, Copy, Debug, PartialEq, Eq, Hash)]
pub struct Column<'a> {
    pub name: &'a str,
    pub size: Constraint,
}
