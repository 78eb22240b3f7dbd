//! Values that `==` compares exactly, and whose clones are equal to them.

ghost use Rattle.std.proofs.Common.{rules};

use crate::error::PanesError;
use crate::order_error::OrderError;
use tui_cells::Plain;

impl Plain for OrderError {
    ghost same = { Prim.search rules };

    ghost cloned = { Prim.search rules };
}

impl Plain for PanesError {
    ghost same = { Prim.search rules };

    ghost cloned = { Prim.search rules };
}
