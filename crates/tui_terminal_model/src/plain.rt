//! Values that `==` compares exactly, and whose clones are equal to them.

ghost use Rattle.std.proofs.Common.{rules};
ghost use Rattle.tui_terminal_model.specs.Same.{same_output};

use crate::cursor::Cursor;
use crate::depth::Depth;
use crate::output::Output;
use crate::widths::KnownWidths;
use tui_cells::Plain;

impl Plain for Cursor {
    ghost same = { Prim.search rules };

    ghost cloned = { Prim.search rules };
}

impl Plain for Depth {
    ghost same = { Prim.search rules };

    ghost cloned = { Prim.search rules };
}

impl Plain for KnownWidths {
    ghost same = { Prim.search rules };

    ghost cloned = { Prim.search rules };
}

impl Plain for Output {
    ghost same = { same_output };

    ghost cloned = { Prim.search rules };
}
