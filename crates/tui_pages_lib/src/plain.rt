//! Values that `==` compares exactly, and whose clones are equal to them.

ghost use Rattle.std.proofs.Common.{rules};

use crate::column::Column;
use crate::piece::Piece;
use crate::report_error::ReportError;
use tui_cells::{Copied, Plain};

impl<'a> Copied for Column<'a> {
    ghost cloned = { Prim.search rules };
}

impl Plain for Piece {
    ghost same = { Prim.search rules };

    ghost cloned = { Prim.search rules };
}

impl Plain for ReportError {
    ghost same = { Prim.search rules };

    ghost cloned = { Prim.search rules };
}
