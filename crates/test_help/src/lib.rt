//! What the crates of tests share: what a buffer shows.
#![tactic(auto)]

mod symbols;

pub use symbols::shows;
