//! The JSON input of programs: kinds of value, the members of an object, and the first field whose test fails.
#![tactic(auto)]

mod array;
mod constraint;
mod explains;
mod explanation;
mod fault;
mod fields;
mod input_error;
mod kind;
mod members;
mod named;
mod number;
mod numbered;
mod object;
mod plain;
mod text;
mod wanted;

pub use array::{Counted, each, elements};
pub use constraint::constraint_of;
pub use explains::{
    Explains, elements_fault, fault_of, given_member_fault, inside_at, items_fault, member_fault,
    not_allowed, optional_member_fault, value_at,
};
pub use explanation::explain;
pub use fault::{Fault, Step, inside};
pub use fields::{Fields, any_member, error_at, given, optional, required};
pub use input_error::InputError;
pub use kind::{Kind, KindError};
pub use members::{given_member, member, optional_member};
pub use named::{ByName, Named, by_name, optional_named, optional_named_member};
pub use number::Within;
pub use numbered::{Numbered, each_numbered};
pub use object::{Object, Objects};
pub use text::Short;
pub use wanted::Wanted;
