//! Values that `==` compares exactly, and whose clones are equal to them.

ghost use Rattle.std.proofs.Common.{rules};

use crate::app::Flow;
use crate::outcome::AppEnd;
use tui_cells::Plain;

impl Plain for AppEnd {
    ghost same = { Prim.search rules };

    ghost cloned = { Prim.search rules };
}

impl Plain for Flow {
    ghost same = { Prim.search rules };

    ghost cloned = { Prim.search rules };
}
