//! The program `tui_pager`: it reads entries and keys in JSON, and writes the state after each key and the last screen.
#![tactic(auto)]

mod bad_input;
mod command;
mod ended;
mod faults;
mod field;
mod input;
mod laws;
mod plain;
mod printing;
mod program;
mod run;
mod step;

pub use bad_input::BadInput;
pub use command::PagerCommand;
pub use ended::PagerEnded;
pub use faults::explain_input;
pub use field::PagerField;
pub use laws::{explained_law, output_law};
pub use program::{run_pager, run_program};
