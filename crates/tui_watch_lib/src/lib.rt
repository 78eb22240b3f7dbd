//! A dashboard of a machine, which reads a folder laid out as /proc at each tick.
#![tactic(auto)]

mod drawing;
mod history;
mod load;
mod machine;
mod memory;
mod numbers;
mod process;
mod processors;
mod reading;
mod table;
mod trends;
mod watch;

pub use load::Load;
pub use machine::Machine;
pub use memory::Memory;
pub use process::{Process, Stat};
pub use processors::Processors;
pub use reading::MachineReading;
pub use watch::Watch;
