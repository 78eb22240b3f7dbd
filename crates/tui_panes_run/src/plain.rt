//! Plain values of the program: equal by `==` means the same, and a clone is the value.

ghost use Rattle.std.proofs.Common.{rules};
ghost use Rattle.tui_panes_run.specs.Same.{same_ended, same_refusal};

use crate::command::PanesCommand;
use crate::ended::PanesEnded;
use crate::field::PaneField;
use crate::order::Order;
use crate::refusal::PanesRefusal;
use tui_cells::Plain;

impl Plain for Order {
    ghost same = { Prim.search rules };

    ghost cloned = { Prim.search rules };
}

impl Plain for PanesCommand {
    ghost same = { Prim.search rules };

    ghost cloned = { Prim.search rules };
}

impl Plain for PaneField {
    ghost same = { Prim.search rules };

    ghost cloned = { Prim.search rules };
}

impl Plain for PanesRefusal {
    ghost same = { same_refusal };

    ghost cloned = { Prim.search rules };
}

impl Plain for PanesEnded {
    ghost same = { same_ended };

    ghost cloned = { Prim.search rules };
}
