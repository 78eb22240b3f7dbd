//! A form as an app: keys fill in its fields.
#![tactic(auto)]

mod actions;
mod drawing;
mod field;
mod form;
mod indices;
mod items;
mod laws;
mod steps;
mod value;

pub use field::{Answer, FormField};
pub use form::{Form, Outcome};
pub use laws::{form_law, outcome_laws};
pub use value::Value;
