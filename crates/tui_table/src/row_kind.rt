//! The role of a row in its table.

/// The role of a row in its table.
#[derive(Clone, Copy, Debug, PartialEq, Eq)]
pub(crate) enum RowKind {
    /// The header or the footer. Each of its cells takes one column, whatever its span.
    Edge,
    /// A row that is not selected.
    Plain,
    /// The selected row, which the highlight symbol marks.
    Selected,
}
