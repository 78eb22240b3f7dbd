//! Values that `==` compares exactly, and whose clones are equal to them.

ghost use Rattle.std.proofs.Common.{rules};

use crate::border_type::BorderType;
use crate::borders::Borders;
use crate::clear::Clear;
use crate::effect::Dimmed;
use crate::fill::Fill;
use crate::padding::Padding;
use crate::shadow::Shadow;
use crate::title_position::TitlePosition;
use tui_cells::{Copied, Plain};

impl Plain for BorderType {
    ghost same = { Prim.search rules };

    ghost cloned = { Prim.search rules };
}

impl Plain for Borders {
    ghost same = { Prim.search rules };

    ghost cloned = { Prim.search rules };
}

impl Plain for Clear {
    ghost same = { Prim.search rules };

    ghost cloned = { Prim.search rules };
}

impl Plain for Dimmed {
    ghost same = { Prim.search rules };

    ghost cloned = { Prim.search rules };
}

impl<'a> Copied for Fill<'a> {
    ghost cloned = { Prim.search rules };
}

impl Plain for Padding {
    ghost same = { Prim.search rules };

    ghost cloned = { Prim.search rules };
}

impl<'a> Copied for Shadow<'a> {
    ghost cloned = { Prim.search rules };
}

impl Plain for TitlePosition {
    ghost same = { Prim.search rules };

    ghost cloned = { Prim.search rules };
}
