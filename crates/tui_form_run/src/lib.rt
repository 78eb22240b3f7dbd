//! The program `tui_form`: it asks the user to fill in a form. This crate goes from the arguments, the form and the
//! terminal's input to the answers.
#![tactic(auto)]

mod answers;
mod arguments;
mod asked_form;
mod asking;
mod bad_form;
mod faults;
mod field_kind;
mod filled;
mod form_command;
mod form_left;
mod key;
mod laws;
mod plain;
mod program;
mod reading;
mod session;
mod texts;

pub use answers::write_answers_line;
pub use arguments::FormFiles;
pub use bad_form::BadForm;
pub use faults::explain_form;
pub use field_kind::FieldKind;
pub use form_left::FormLeft;
pub use key::FormKey;
pub use laws::{answers_law, explained_law, filled_law};
pub use program::run_form;
pub use reading::form_of;
pub use session::show_form;
