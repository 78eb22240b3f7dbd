//! Plain values of the program: equal by `==` means the same, and a clone is the value.

ghost use Rattle.std.proofs.Common.{rules};

use crate::format::Format;
use tui_cells::Plain;

impl Plain for Format {
    ghost same = { Prim.search rules };

    ghost cloned = { Prim.search rules };
}
