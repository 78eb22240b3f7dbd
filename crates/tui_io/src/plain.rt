//! Values that `==` compares exactly, and whose clones are equal to them.

ghost use Rattle.std.proofs.Common.{rules};

use crate::read::ReadEnd;
use crate::sink::WriteFault;
use crate::source::Failed;
use tui_cells::Plain;

impl Plain for Failed {
    ghost same = { Prim.search rules };

    ghost cloned = { Prim.search rules };
}

impl Plain for ReadEnd {
    ghost same = { Prim.search rules };

    ghost cloned = { Prim.search rules };
}

impl Plain for WriteFault {
    ghost same = { Prim.search rules };

    ghost cloned = { Prim.search rules };
}
