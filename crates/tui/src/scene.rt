//! Scenes: widgets with their areas, drawn in order.

pub use tui_scene::{DrawError, Item, Placed, Scene, draw, draw_at, draw_new};
