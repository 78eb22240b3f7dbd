//! Lists of items, tabs and scrollbars.
#![tactic(auto)]

pub mod direction;
pub mod laws;
pub mod list;
mod painting;
mod plain;
pub mod scrollbar;
pub mod tabs;

pub use direction::ListDirection;
pub use laws::{list_laws, thumb_laws};
pub use list::List;
pub use list::item::ListItem;
pub use list::state::ListState;
pub use scrollbar::Scrollbar;
pub use scrollbar::direction::ScrollDirection;
pub use scrollbar::orientation::ScrollbarOrientation;
pub use scrollbar::state::ScrollbarState;
pub use tabs::Tabs;
