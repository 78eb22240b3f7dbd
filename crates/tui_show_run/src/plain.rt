//! Values of the program that `==` compares exactly, and whose clones are equal to them.

ghost use Rattle.std.proofs.Common.{rules};
ghost use Rattle.tui_show_run.specs.Same.{same_ended};

use crate::command::ShowCommand;
use crate::ended::Ended;
use tui_cells::Plain;

impl Plain for ShowCommand {
    ghost same = { Prim.search rules };

    ghost cloned = { Prim.search rules };
}

impl Plain for Ended {
    ghost same = { same_ended };

    ghost cloned = { Prim.search rules };
}
