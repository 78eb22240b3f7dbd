//! The symbols that widgets draw with.

pub use tui_cells::{MergeStrategy, bar, block, border, line, scrollbar, shade};
