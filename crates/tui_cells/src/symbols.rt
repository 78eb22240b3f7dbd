//! The symbols that widgets draw with.

pub mod bar;
pub mod block;
pub mod border;
pub mod line;
pub mod scrollbar;
pub mod shade;
