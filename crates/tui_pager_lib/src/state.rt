//! The state of a pager.

/// The selected entry, the first entry in the list, and the first line of the selected body that is shown, each counted
/// from 0. `selected` is `None` if and only if there are no entries.
#[derive(Clone, Copy, Debug, PartialEq, Eq, Hash)]
pub struct PagerState {
    pub selected: Option<usize>,
    pub offset: usize,
    pub line: u16,
}
