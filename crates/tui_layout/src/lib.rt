//! Rows and columns: splitting a length into columns, heights and their sums, the window of a scrolled list, and moving
//! a selection.
#![tactic(auto)]

mod binary_search;
pub mod columns;
pub mod constraint;
pub mod direction;
pub mod flex;
pub mod fraction;
pub mod highlight_spacing;
pub mod laws;
mod plain;
mod plan;
pub mod segment;
pub mod selection;
mod sharing;
pub mod steps;
pub mod sums;
pub mod window;

pub use columns::split;
pub use constraint::Constraint;
pub use direction::Direction;
pub use flex::Flex;
pub use fraction::Fraction;
pub use highlight_spacing::HighlightSpacing;
pub use laws::window_laws;
pub use segment::Segment;
pub use steps::Steps;
pub use sums::Sums;
pub use window::{Window, scroll_window, window_of};
