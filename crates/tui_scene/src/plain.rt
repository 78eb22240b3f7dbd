//! Values that `==` compares exactly, and whose clones are equal to them.

ghost use Rattle.std.proofs.Common.{rules};

use crate::drawing::DrawError;
use tui_cells::Plain;

impl Plain for DrawError {
    ghost same = { Prim.search rules };

    ghost cloned = { Prim.search rules };
}
