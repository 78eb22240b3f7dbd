//! Panes: an area that is split into a tree. Each leaf has a rectangle and a widget. Leaves can be drawn in any order,
//! and a single leaf can be replaced and redrawn.
#![tactic(auto)]

mod drawing;
pub mod error;
pub mod laws;
mod levels;
mod order;
pub mod order_error;
pub mod pane;
pub mod panes;
mod placed_leaves;
pub mod placing;
mod plain;

pub use error::PanesError;
pub use laws::{panes_laws, tree_laws};
pub use order_error::OrderError;
pub use pane::{Pane, Part};
pub use panes::Panes;
pub use placing::scene_in;
