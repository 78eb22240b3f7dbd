//! Values that `==` compares exactly, and whose clones are equal to them.

ghost use Rattle.std.proofs.Common.{rules};
ghost use Rattle.tui_keys.specs.Same.{same_event, same_keys, same_step};

use crate::event::{Event, Modifiers, Motion};
use crate::keys::{Decoded, KeyDecoder};
use tui_cells::Plain;

impl Plain for Decoded {
    ghost same = { same_step };

    ghost cloned = { Prim.search rules };
}

impl Plain for Event {
    ghost same = { same_event };

    ghost cloned = { Prim.search rules };
}

impl Plain for KeyDecoder {
    ghost same = { same_keys };

    ghost cloned = { Prim.search rules };
}

impl Plain for Modifiers {
    ghost same = { Prim.search rules };

    ghost cloned = { Prim.search rules };
}

impl Plain for Motion {
    ghost same = { Prim.search rules };

    ghost cloned = { Prim.search rules };
}
