//! Values of the program that `==` compares exactly, and whose clones are equal to them.

ghost use Rattle.std.proofs.Common.{rules};

use crate::bad_input::BadInput;
use crate::command::PagerCommand;
use crate::ended::PagerEnded;
use crate::field::PagerField;
use tui_cells::Plain;

impl Plain for PagerCommand {
    ghost same = { Prim.search rules };

    ghost cloned = { Prim.search rules };
}

impl Plain for PagerField {
    ghost same = { Prim.search rules };

    ghost cloned = { Prim.search rules };
}

impl Plain for BadInput {
    ghost same = { Prim.search rules };

    ghost cloned = { Prim.search rules };
}

impl Plain for PagerEnded {
    ghost same = { Prim.search rules };

    ghost cloned = { Prim.search rules };
}
