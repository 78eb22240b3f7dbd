//! Writes the rows of a buffer to a sink: the symbols of the visible cells, in long pieces.
#![tactic(auto)]

mod letters;
mod rows;
mod width_cache;
mod write;

pub use rows::{emit_rows, emit_symbols};
pub use write::write_rows;
