//! What all passes over a bar chart share.

use tui_cells::Rect;

/// What all bars of a chart share while it is drawn.
#[derive(Clone, Copy, Debug, PartialEq, Eq)]
pub(crate) struct ChartPlan {
    /// The area inside the block.
    pub(crate) area: Rect,
    /// The value that fills the length.
    pub(crate) greatest: u64,
    /// How many cells long a bar is at most.
    pub(crate) length: u16,
    /// In a vertical chart: whether labels of bars and labels of groups have a row below the bars.
    pub(crate) bar_labels: bool,
    pub(crate) group_labels: bool,
    /// In a horizontal chart: the width of the bars' labels, and the column where the bars start.
    pub(crate) labels: u16,
    pub(crate) start: u16,
}

/// The columns or rows that the groups of a chart are drawn in.
#[derive(Clone, Copy)]
pub(crate) struct Stretch {
    pub(crate) first: u16,
    /// How many there are.
    pub(crate) room: u16,
}

/// One pass over the bars that are shown.
#[derive(Clone, Copy, Debug, PartialEq, Eq)]
pub(crate) struct Walk {
    pub(crate) plan: ChartPlan,
    pub(crate) pass: Pass,
}

/// What a pass draws.
#[derive(Clone, Copy, Debug, PartialEq, Eq)]
pub(crate) enum Pass {
    /// The cells of vertical bars.
    Columns,
    /// Labels and values of vertical bars.
    Texts,
    /// Horizontal bars, each with its label and value.
    Rows,
}
