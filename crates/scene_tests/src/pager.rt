//! A pager by the call that no program makes.

use std::alloc::Global;
use tui_pager_lib::{Pager, PagerError};

/// The columns of a pager without entries after this size was given.
fn columns_after(alloc: Global, width: u16, height: u16) -> Result<u16, PagerError> {
    let mut pager = Pager::new(alloc, 15, 5, Vec::new(alloc))?;
    pager.resize(width, height)?;
    Ok(pager.screen().area().width)
}

#[test]
fn a_size_is_taken(rt: HostRuntime) {
    assert!(&rt; columns_after(rt.alloc(), 12, 7) == Ok(12));
    assert!(&rt; columns_after(rt.alloc(), 11, 7) == Err(PagerError::TooSmall));
}
