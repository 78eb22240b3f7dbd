//! Values that `==` compares exactly, and whose clones are equal to them.

ghost use Rattle.std.proofs.Common.{rules};

use crate::caller::Library;
use crate::cleanup::Cleanup;
use crate::numerals::Numerals;
use crate::stop::Stop;
use tui_cells::Plain;

impl Plain for Cleanup {
    ghost same = { Prim.search rules };

    ghost cloned = { Prim.search rules };
}

impl Plain for Library {
    ghost same = { Prim.search rules };

    ghost cloned = { Prim.search rules };
}

impl Plain for Numerals {
    ghost same = { Prim.search rules };

    ghost cloned = { Prim.search rules };
}

impl<R: Plain> Plain for Stop<R> {
    ghost same = { Prim.search (rules, R.Plain.same) };

    ghost cloned = { Prim.search (rules, R.Plain.cloned) };
}
