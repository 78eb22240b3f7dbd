//! A single-line text input.
#![tactic(auto)]

mod ends;
pub mod input;
mod scroll;
pub mod state;
mod taking;

pub use input::Input;
pub use state::InputState;
