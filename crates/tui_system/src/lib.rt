//! What programs need from the system: arguments, terminal settings from the environment, the terminal, files to read
//! and to write. Running out of memory is an error of its own.
#![tactic(auto)]

mod answers;
mod commands;
mod console;
mod destination;
mod environment;
mod file_destination;
mod host;
mod late;
mod left;
mod mem_input;
mod mem_system;
mod named_file;
mod opened;
mod place;
mod plain;
mod rejects_nothing;
mod reports;
mod runtime;
mod settings;
mod stream;
mod streams;
mod system;

pub use answers::or_out_of_memory;
pub use commands::{FileCommand, SystemCommand, command_of, read_for_command};
pub use console::{Console, open_terminal};
pub use destination::Destination;
pub use environment::{depth, setting};
pub use file_destination::FileDestination;
pub use host::Host;
pub use late::{Late, OpensPlace, OpensTerminal};
pub use left::{Left, session_outcome};
pub use mem_input::MemInput;
pub use mem_system::MemSystem;
pub use named_file::NamedFile;
pub use opened::{Opened, SystemOpened, SystemPlaces};
pub use place::{Place, place_for};
pub use rejects_nothing::RejectsNothing;
pub use reports::{finish, report};
pub use runtime::Runtime;
pub use settings::Setting;
pub use stream::Stream;
pub use streams::{InputStream, OutputStream, StreamTerminal, SystemStreams, TerminalInput};
pub use system::System;
