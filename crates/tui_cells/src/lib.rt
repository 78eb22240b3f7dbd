//! Cells of a terminal screen: rectangles, styles, cells, buffers of cells, and the traits of widgets.
#![tactic(auto)]

mod arms;
pub mod attributes;
mod box_drawing;
pub mod buffer;
pub mod cell;
pub mod color;
mod content;
pub mod error;
pub mod laws;
pub mod memory;
pub mod merge_strategy;
pub mod modifier;
pub mod offset;
mod plain;
pub mod position;
pub mod rect;
mod row;
pub mod size;
pub mod stateful;
pub mod style;
pub mod styled;
pub mod symbols;
pub mod widget;

pub use attributes::Attributes;
pub use buffer::Buffer;
pub use cell::Cell;
pub use color::Color;
pub use error::ParseError;
pub use laws::{empty_clip_law, empty_clip_state_law};
pub use memory::{Mem, NoMemory};
pub use merge_strategy::MergeStrategy;
pub use modifier::Modifier;
pub use offset::Offset;
pub use plain::{Copied, Plain};
pub use position::Position;
pub use rect::{FARTHEST_EDGE, Rect};
pub use size::Size;
pub use stateful::StatefulWidget;
pub use style::Style;
pub use styled::Styled;
pub use symbols::{bar, block, border, line, scrollbar, shade};
pub use widget::Widget;
