//! Displays: each input line determines the next screen.

pub use tui_display::{DisplayEnd, Painter, show_lines};
