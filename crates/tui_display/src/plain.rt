//! Values that `==` compares exactly, and whose clones are equal to them.

ghost use Rattle.std.proofs.Common.{rules};

use crate::outcome::DisplayEnd;
use tui_cells::Plain;

impl Plain for DisplayEnd {
    ghost same = { Prim.search rules };

    ghost cloned = { Prim.search rules };
}
