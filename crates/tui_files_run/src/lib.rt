//! The program `tui_files`: a browser of folders. This crate goes from the arguments and the terminal's input to what the
//! terminal is sent, and to the path that was chosen.
#![tactic(auto)]

mod arguments;
mod browsing;
mod choosing;
mod paths;
mod program;
mod running;

pub use arguments::FilesCommand;
pub use paths::FolderPaths;
pub use program::browse_files;
