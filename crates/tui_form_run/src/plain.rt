//! Plain values of the program: equal by `==` means the same, and a clone is the value.

ghost use Rattle.std.proofs.Common.{rules};
ghost use Rattle.tui_form_run.specs.Same.{same_bad_form, same_key};

use crate::bad_form::BadForm;
use crate::field_kind::FieldKind;
use crate::form_left::FormLeft;
use crate::key::FormKey;
use tui_cells::Plain;

impl Plain for FieldKind {
    ghost same = { Prim.search rules };

    ghost cloned = { Prim.search rules };
}

impl Plain for FormKey {
    ghost same = { same_key };

    ghost cloned = { Prim.search rules };
}

impl Plain for BadForm {
    ghost same = { same_bad_form };

    ghost cloned = { Prim.search rules };
}

impl Plain for FormLeft {
    ghost same = { Prim.search rules };

    ghost cloned = { Prim.search rules };
}
