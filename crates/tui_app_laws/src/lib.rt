//! What a terminal shows while an app runs on it.
#![tactic(auto)]

mod laws;

pub use laws::{over_law, ticks_law, waiting_law};
