//! Interactive terminal programs. An `App` handles events and draws itself; `run` runs its event loop.
#![tactic(auto)]

mod app;
mod buffers;
mod feed;
mod io_terminal;
mod iteration;
mod memory_terminal;
mod outcome;
mod over;
mod plain;
mod runs;
mod setup;
mod shown;
mod terminal;
mod too_small;

pub use app::{App, Flow};
pub use io_terminal::IoTerminal;
pub use memory_terminal::MemTerminal;
pub use outcome::{AppEnd, MAX_READS};
pub use over::run_over;
pub use runs::run;
pub use terminal::{READ_CAPACITY, Terminal};
pub use too_small::draw_too_small;
