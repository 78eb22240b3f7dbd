//! Pagers: a list of entries with the body of the selected one beside it, moved by keys.
#![tactic(auto)]

mod body;
mod change;
mod contents;
mod drawing;
pub mod entry;
pub mod key;
mod laws;
pub mod pager;
pub mod pager_error;
mod plain;
mod shown;
pub mod size;
mod sized;
pub mod state;
mod steps;
mod title_list;
pub mod view;

pub use entry::Entry;
pub use key::Key;
pub use laws::pager_laws;
pub use pager::Pager;
pub use pager_error::PagerError;
pub use size::PagerSize;
pub use state::PagerState;
pub use view::PagerView;
