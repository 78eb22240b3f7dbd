//! Panes: the leaves of a tree of splits on a screen. They can be drawn in any order, and each can be redrawn alone.

pub use tui_panes_lib::{OrderError, Pane, Panes, PanesError, Part, scene_in};
