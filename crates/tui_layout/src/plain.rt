//! Values that `==` compares exactly, and whose clones are equal to them.

ghost use Rattle.std.proofs.Common.{rules};

use crate::constraint::Constraint;
use crate::direction::Direction;
use crate::flex::Flex;
use crate::fraction::Fraction;
use crate::highlight_spacing::HighlightSpacing;
use crate::segment::Segment;
use crate::window::Window;
use tui_cells::Plain;

impl Plain for Constraint {
    ghost same = { Prim.search rules };

    ghost cloned = { Prim.search rules };
}

impl Plain for Direction {
    ghost same = { Prim.search rules };

    ghost cloned = { Prim.search rules };
}

impl Plain for Flex {
    ghost same = { Prim.search rules };

    ghost cloned = { Prim.search rules };
}

impl Plain for Fraction {
    ghost same = { Prim.search rules };

    ghost cloned = { Prim.search rules };
}

impl Plain for HighlightSpacing {
    ghost same = { Prim.search rules };

    ghost cloned = { Prim.search rules };
}

impl Plain for Segment {
    ghost same = { Prim.search rules };

    ghost cloned = { Prim.search rules };
}

impl Plain for Window {
    ghost same = { Prim.search rules };

    ghost cloned = { Prim.search rules };
}
