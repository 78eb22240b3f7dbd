//! Values that `==` compares exactly, and whose clones are equal to them.

ghost use Rattle.std.proofs.Common.{rules};
ghost use Rattle.tui_bars.specs.Same.{same_bar};

use crate::error::GaugeError;
use crate::render_direction::RenderDirection;
use crate::sparkline_bar::SparklineBar;
use tui_cells::Plain;

impl Plain for GaugeError {
    ghost same = { Prim.search rules };

    ghost cloned = { Prim.search rules };
}

impl Plain for RenderDirection {
    ghost same = { Prim.search rules };

    ghost cloned = { Prim.search rules };
}

impl Plain for SparklineBar {
    ghost same = { same_bar };

    ghost cloned = { Prim.search rules };
}
