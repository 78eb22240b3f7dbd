//! What a call changes.

use crate::size::PagerSize;
use crate::state::PagerState;

/// The next size and state, and the byte offsets at which the lines of the then selected body start. `line_starts` is `None`
/// if the width and the selected entry don't change; the stored offsets then stay valid.
#[derive(Drop)]
pub(crate) struct PagerChange {
    pub(crate) size: PagerSize,
    pub(crate) state: PagerState,
    pub(crate) line_starts: Option<Vec<usize>>,
}
