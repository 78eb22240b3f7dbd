//! Values that `==` compares exactly, and whose clones are equal to them.

ghost use Rattle.std.proofs.Common.{rules};

use crate::input_error::InputError;
use crate::kind::KindError;
use tui_cells::Plain;

impl<R: Plain> Plain for InputError<R> {
    ghost same = { Prim.search (rules, R.Plain.same) };

    ghost cloned = { Prim.search (rules, R.Plain.cloned) };
}

impl Plain for KindError {
    ghost same = { Prim.search rules };

    ghost cloned = { Prim.search rules };
}
