//! The program `tui_watch`: a dashboard of the machine. This crate goes from the arguments and the terminal's input to
//! what the terminal is sent.
#![tactic(auto)]

mod arguments;
mod machines;
mod program;

pub use arguments::WatchCommand;
pub use machines::Machines;
pub use program::watch;
