//! The print of a screen: the rows and the runs of a buffer, and the states of the widgets that were drawn into it.
#![tactic(auto)]

mod laws;
mod line;
mod runs;
mod screen;
mod states;

pub use laws::print_laws;
pub use runs::emit_runs;
pub use screen::{emit_screen, write_screen};
pub use states::emit_states;
