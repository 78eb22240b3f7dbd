//! Values that `==` compares exactly, and whose clones are equal to them.

ghost use Rattle.std.proofs.Common.{rules};

use crate::lines::Lines;
use tui_cells::Plain;

impl Plain for Lines {
    ghost same = { Prim.search rules };

    ghost cloned = { Prim.search rules };
}
