//! Areas, columns, alignments, and the window of a scrolled list.

pub use tui_cells::{FARTHEST_EDGE, Offset, Position, Rect, Size};
pub use tui_layout::{
    Constraint, Direction, Flex, Fraction, Segment, Sums, Window, split, window_of,
};
pub use tui_text::Alignment;
