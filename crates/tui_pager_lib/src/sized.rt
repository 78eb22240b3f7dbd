//! A state and the size of its screen.

use crate::size::PagerSize;
use crate::state::PagerState;

/// The size of a screen, and the state that it shows.
#[derive(Clone, Copy)]
pub(crate) struct SizedState {
    pub(crate) size: PagerSize,
    pub(crate) state: PagerState,
}
