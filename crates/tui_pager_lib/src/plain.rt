//! Values that `==` compares exactly, and whose clones are equal to them.

ghost use Rattle.std.proofs.Common.{rules};
ghost use Rattle.tui_pager_lib.specs.Same.{same_size};

use crate::entry::Entry;
use crate::key::Key;
use crate::pager_error::PagerError;
use crate::size::PagerSize;
use crate::state::PagerState;
use tui_cells::{Copied, Plain};

impl<'a> Copied for Entry<'a> {
    ghost cloned = { Prim.search rules };
}

impl Plain for Key {
    ghost same = { Prim.search rules };

    ghost cloned = { Prim.search rules };
}

impl Plain for PagerError {
    ghost same = { Prim.search rules };

    ghost cloned = { Prim.search rules };
}

impl Plain for PagerSize {
    ghost same = { same_size };

    ghost cloned = { Prim.search rules };
}

impl Plain for PagerState {
    ghost same = { Prim.search rules };

    ghost cloned = { Prim.search rules };
}
