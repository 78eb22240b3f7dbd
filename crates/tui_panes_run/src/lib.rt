//! The program `tui_panes`: it reads a tree of panes and changes of single panes in JSON. It writes the screen, or
//! which leaf is at a position.
#![tactic(auto)]

mod change;
mod change_field;
mod command;
mod counts;
mod ended;
mod faults;
mod field;
mod finding;
mod input;
mod item;
mod laws;
mod order;
mod plain;
mod program;
mod refusal;
mod screen;
mod shape;
mod tree;

pub use command::PanesCommand;
pub use ended::PanesEnded;
pub use faults::explain_input;
pub use field::PaneField;
pub use laws::{explained_law, output_laws};
pub use order::Order;
pub use program::{run_panes, run_program};
pub use refusal::PanesRefusal;
