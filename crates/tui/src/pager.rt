//! Pagers: a list of entries, and the body of the selected one beside it, moved by keys.

pub use tui_pager_lib::{Entry, Key, Pager, PagerError, PagerSize, PagerState, PagerView};
