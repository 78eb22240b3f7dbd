//! Values that `==` compares exactly, and whose clones are equal to them.

ghost use Rattle.std.proofs.Common.{rules};

use crate::composer::WrappedLine;
use crate::counting::counter::Counter;
use crate::counting::line_end::LineEnd;
use crate::logo::RatatuiLogo;
use crate::size::Size;
use crate::wrap::Wrap;
use crate::wrapping::mark::Mark;
use tui_cells::{Copied, Plain};

impl Copied for Counter {
    ghost cloned = { Prim.search rules };
}

impl Plain for LineEnd {
    ghost same = { Prim.search rules };

    ghost cloned = { Prim.search rules };
}

impl Plain for Mark {
    ghost same = { Prim.search rules };

    ghost cloned = { Prim.search rules };
}

impl Plain for RatatuiLogo {
    ghost same = { Prim.search rules };

    ghost cloned = { Prim.search rules };
}

impl Plain for Size {
    ghost same = { Prim.search rules };

    ghost cloned = { Prim.search rules };
}

impl Plain for Wrap {
    ghost same = { Prim.search rules };

    ghost cloned = { Prim.search rules };
}

impl<'l, 'a> Copied for WrappedLine<'l, 'a> {
    ghost cloned = { Prim.search rules };
}
