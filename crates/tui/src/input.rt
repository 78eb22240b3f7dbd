//! A single-line text input and its state.

pub use tui_input::{Input, InputState};
