//! Values of the program that `==` compares exactly, and whose clones are equal to them.

ghost use Rattle.std.proofs.Common.{rules};

use crate::command::PagesCommand;
use crate::ended::PagesEnded;
use crate::field::ReportField;
use crate::refusal::PagesRefusal;
use tui_cells::Plain;

impl Plain for PagesCommand {
    ghost same = { Prim.search rules };

    ghost cloned = { Prim.search rules };
}

impl Plain for ReportField {
    ghost same = { Prim.search rules };

    ghost cloned = { Prim.search rules };
}

impl Plain for PagesRefusal {
    ghost same = { Prim.search rules };

    ghost cloned = { Prim.search rules };
}

impl Plain for PagesEnded {
    ghost same = { Prim.search rules };

    ghost cloned = { Prim.search rules };
}
