//! Scenes in JSON: the schema, and why a value is no valid scene.
#![tactic(auto)]

mod bad_field;
mod error;
mod faults;
mod field;
mod items;
mod kinds;
mod laws;
mod reading;

pub use bad_field::BadField;
pub use error::SceneError;
pub use faults::{explain_scene, item_fault};
pub use field::Field;
pub use items::{item_of, item_without_area};
pub use laws::{explained_law, refusal_laws};
pub use reading::{Reading, read_scene, scene_of};
pub use tui_json::constraint_of;
