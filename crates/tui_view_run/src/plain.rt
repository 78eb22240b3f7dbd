//! Values of the program that `==` compares exactly, and whose clones are equal to them.

ghost use Rattle.std.proofs.Common.{rules};

use crate::frames::Frames;
use tui_cells::Plain;

impl Plain for Frames {
    ghost same = { Prim.search rules };

    ghost cloned = { Prim.search rules };
}
