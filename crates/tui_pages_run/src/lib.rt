//! The program `tui_pages`: it reads a report in JSON and cuts it into pages. It writes them, or how many there are.
#![tactic(auto)]

mod command;
mod ended;
mod faults;
mod field;
mod input;
mod laws;
mod paged_report;
mod plain;
mod printing;
mod program;
mod record_texts;
mod refusal;

pub use command::PagesCommand;
pub use ended::PagesEnded;
pub use faults::explain_report;
pub use field::ReportField;
pub use laws::explained_law;
pub use program::{run_pages, run_program};
pub use refusal::PagesRefusal;
