//! Shows on a terminal what the lines of the input call for: each line that is read yields the next screen.
#![tactic(auto)]

mod display;
mod feed;
mod iteration;
mod laws;
mod outcome;
mod painter;
mod plain;
mod runs;
mod sending;
mod setup;
mod showing;

pub use laws::showing_law;
pub use outcome::DisplayEnd;
pub use painter::Painter;
pub use runs::show_lines;
