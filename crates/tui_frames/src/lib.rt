//! What surrounds and covers widgets: blocks with borders and titles, shadows, areas made blank, and areas filled.
#![tactic(auto)]

pub mod block;
pub mod block_ext;
pub mod border_type;
pub mod borders;
pub mod clear;
pub mod effect;
pub mod fill;
pub mod laws;
pub mod padding;
mod plain;
pub mod shadow;
pub mod title_position;

pub use block::{Block, Title};
pub use block_ext::{
    BlockExt, beside, clone_if_some, columns_if_some, paint_frame, paint_if_some, rows_if_some,
};
pub use border_type::BorderType;
pub use borders::Borders;
pub use clear::Clear;
pub use effect::{CellEffect, Dimmed};
pub use fill::Fill;
pub use laws::block_laws;
pub use padding::Padding;
pub use shadow::Shadow;
pub use title_position::TitlePosition;
