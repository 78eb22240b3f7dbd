//! Values that `==` compares exactly, and whose clones are equal to them.

ghost use Rattle.std.proofs.Common.{rules};
ghost use Rattle.tui_system.specs.Same.{same_setting};

use crate::left::Left;
use crate::settings::Setting;
use crate::streams::TerminalInput;
use tui_cells::Plain;

impl Plain for Left {
    ghost same = { Prim.search rules };

    ghost cloned = { Prim.search rules };
}

impl Plain for Setting {
    ghost same = { same_setting };

    ghost cloned = { Prim.search rules };
}

impl Plain for TerminalInput {
    ghost same = { Prim.search rules };

    ghost cloned = { Prim.search rules };
}
