//! Styles, colours and modifiers.

pub use tui_cells::{Color, Modifier, ParseError, Style, Styled};
