//! Finds where the lines of a wrapped text begin.
#![tactic(auto)]

mod graphemes;
mod line;
pub mod lines;
mod part;
mod places;
mod plain;
mod rest;

pub use lines::Lines;
pub use part::{first_part, is_after_newline};
pub use places::{from_line, line_offsets};
pub use rest::after_line;
