//! Values that `==` compares exactly, and whose clones are equal to them.

ghost use Rattle.std.proofs.Common.{rules};

use crate::alignment::Alignment;
use crate::grapheme::StyledGrapheme;
use crate::span::Span;
use tui_cells::{Copied, Plain};

impl Plain for Alignment {
    ghost same = { Prim.search rules };

    ghost cloned = { Prim.search rules };
}

impl<'a> Copied for Span<'a> {
    ghost cloned = { Prim.search rules };
}

impl<'a> Copied for StyledGrapheme<'a> {
    ghost cloned = { Prim.search rules };
}
