//! Values that `==` compares exactly, and whose clones are equal to them.

ghost use Rattle.std.proofs.Common.{rules};

use crate::state::TableState;
use crate::widths_error::WidthsError;
use tui_cells::Plain;

impl Plain for TableState {
    ghost same = { Prim.search rules };

    ghost cloned = { Prim.search rules };
}

impl Plain for WidthsError {
    ghost same = { Prim.search rules };

    ghost cloned = { Prim.search rules };
}
