//! A pager as an app, driven by keys and screen sizes.
#![tactic(auto)]

mod actions;
mod laws;
mod paging;

pub use actions::PagerAction;
pub use laws::paging_law;
pub use paging::PagerApp;
