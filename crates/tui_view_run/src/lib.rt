//! The program `tui_view`. `rows` writes the rows of a scene in colour. `frames` shows scenes on a terminal as they are
//! read. This crate goes from the arguments and the input to the output.
#![tactic(auto)]

mod command;
mod display_end;
mod frames;
mod laws;
mod plain;
mod program;
mod rows;

pub use command::ViewCommand;
pub use display_end::display_outcome;
pub use frames::{Frames, show_frames};
pub use laws::message_law;
pub use program::run_view;
