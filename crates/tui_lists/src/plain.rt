//! Values that `==` compares exactly, and whose clones are equal to them.

ghost use Rattle.std.proofs.Common.{rules};

use crate::direction::ListDirection;
use crate::list::state::ListState;
use crate::scrollbar::Scrollbar;
use crate::scrollbar::direction::ScrollDirection;
use crate::scrollbar::orientation::ScrollbarOrientation;
use crate::scrollbar::state::ScrollbarState;
use tui_cells::{Copied, Plain};

impl Plain for ListDirection {
    ghost same = { Prim.search rules };

    ghost cloned = { Prim.search rules };
}

impl Plain for ListState {
    ghost same = { Prim.search rules };

    ghost cloned = { Prim.search rules };
}

impl Plain for ScrollDirection {
    ghost same = { Prim.search rules };

    ghost cloned = { Prim.search rules };
}

impl<'a> Copied for Scrollbar<'a> {
    ghost cloned = { Prim.search rules };
}

impl Plain for ScrollbarOrientation {
    ghost same = { Prim.search rules };

    ghost cloned = { Prim.search rules };
}

impl Plain for ScrollbarState {
    ghost same = { Prim.search rules };

    ghost cloned = { Prim.search rules };
}
