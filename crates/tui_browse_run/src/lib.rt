//! The program `tui_browse`: it shows a file in a pager that keys control. This crate goes from the arguments, the file
//! and the terminal's input to what the terminal is sent.
#![tactic(auto)]

mod arguments;
mod browsing;
mod cutting;
mod entries;
mod format;
mod laws;
mod piece;
mod pieces;
mod plain;
mod program;
mod session;
mod text_entry;

pub use arguments::BrowseCommand;
pub use format::Format;
pub use laws::browsing_law;
pub use piece::TextPiece;
pub use pieces::pieces_of;
pub use program::browse;
pub use session::show;
