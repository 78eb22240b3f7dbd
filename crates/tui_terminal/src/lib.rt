//! Writes buffers to a terminal: a whole buffer for any terminal, or the changes for one that shows the
//! previous buffer.
#![tactic(auto)]

mod adding;
mod changed;
mod colours;
mod depth;
mod encoding;
mod fitting;
mod narrow;
mod palette;
mod pens;
mod rows;
mod seeing;
mod sending;
mod session;
mod shade;
mod styled;
mod symbols;
mod target;
mod write;

pub use depth::depth_of;
pub use session::{enter, leave, settle};
pub use styled::write_styled_rows;
pub use tui_terminal_model::{Cursor, Depth, KnownWidths, Output};
pub use write::{write_changes, write_full};
