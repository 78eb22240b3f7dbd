//! The commands `scene` and `demo`, from the arguments and the input to the output.
#![tactic(auto)]

mod command;
mod demo;
mod ended;
mod laws;
mod plain;
mod program;

pub use command::ShowCommand;
pub use ended::Ended;
pub use laws::{outcome_laws, scene_laws};
pub use program::{run_program, show};
pub use tui_schema::BadField;
