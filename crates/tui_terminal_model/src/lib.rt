//! The terminal model, in which a cell may be unknown, and the commands that make a terminal show a buffer.
//!
//! The model is in specs/: `Terminal` defines the effect of commands, `Encoding` their bytes, and `Calls`
//! what the output must do. The types in src/ are the choices that a caller makes.
#![tactic(auto)]

mod cursor;
mod depth;
mod output;
mod plain;
mod widths;

pub use cursor::Cursor;
pub use depth::Depth;
pub use output::Output;
pub use widths::KnownWidths;
