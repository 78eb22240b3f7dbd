//! Programs whose arguments name a command: what each command reads and writes, and every outcome of a run.
#![tactic(auto)]

mod arguments;
mod caller;
mod cleanup;
mod command;
mod field_line;
mod file_source;
mod input;
mod job;
mod json;
mod numerals;
mod plain;
mod program;
mod reader;
mod rejects;
mod status;
mod stop;

pub use arguments::{are_empty, first_arguments, given_arguments, is_single_argument, start_with};
pub use caller::{Caller, Explainer, Library, Process};
pub use cleanup::Cleanup;
pub use command::ProgramCommand;
pub use field_line::{write_refused_field, write_refused_in_scene};
pub use file_source::FileSource;
pub use input::read_input;
pub use job::{Job, run_json};
pub use json::json_or_explain;
pub use numerals::{Numerals, number_after, numbers_after};
pub use program::{run, run_program};
pub use reader::JsonCommand;
pub use rejects::{Rejects, report_stop};
pub use status::{Done, exit_code};
pub use stop::{Outcome, Stop};
