//! What a program reads from and writes to: sources, sinks, and `Print`, a buffered writer.
#![tactic(auto)]

mod memory_sink;
mod memory_source;
mod plain;
mod print;
mod put;
mod read;
mod sink;
mod source;
mod standard;

pub use memory_sink::MemSink;
pub use memory_source::MemSource;
pub use print::Print;
pub use put::write_all;
pub use read::{CHUNK, LIMIT, ReadEnd, read_all};
pub use sink::{Sink, WriteFault};
pub use source::{Failed, Source};
pub use standard::{StdSink, StdSource};
