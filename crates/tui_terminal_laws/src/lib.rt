//! Laws of terminals: the effect of the writer's commands on every terminal that fits the model. `Sending`,
//! in specs/, defines these commands.
#![tactic(auto)]

mod at;
mod laws;
mod wanted;

pub use at::At;
pub use laws::{colour_laws, reading_law, screen_laws, session_law, styled_law, symbol_law};
pub use wanted::Wanted;
