//! Areas: `[x, y, width, height]`.

ghost use Rattle.tui_schema.specs.Kinds.Area.{area_in};

use crate::field::Field;
use crate::kinds::four::read_four;
use serde_json::Value;
use std::alloc::Global;
use tui_cells::{Mem, Rect};
use tui_json::{Explains, Fault, Kind, KindError, Wanted, elements_fault};

impl<'v> Kind<'v, Field> for Rect {
    ghost use Rattle.tui_cells.specs.declared.rect.Rect.{Rect};

    ghost AsData = { Rect };

    ghost as_data = { λ area. area };

    ghost kind = { area_in };

    #[tactic(auto, unfolding(crate::specs::Kinds::Area::area_in))]
    fn read(alloc: Global, value: &'v Value) -> Result<Rect, KindError> {
        let (x, y, width, height) = read_four(alloc, value)?;
        Ok(Rect {
            x,
            y,
            width,
            height,
        })
    }
}

impl<'v> Explains<'v, Field> for Rect {
    ghost use Rattle.tui_json.specs.Faults.{elements_fault};
    ghost use Rattle.tui_schema.specs.Faults.{an_area, short_fault};

    ghost wanted = { an_area };

    ghost part_fault = { elements_fault short_fault };

    fn wanted() -> Wanted<'v> {
        Wanted::Words("`[x, y, width, height]`, whole numbers from 0 to 65535")
    }

    fn part_fault(alloc: Global, value: &'v Value) -> Mem<Option<Fault<'v>>> {
        elements_fault::<u16, Field>(alloc, value)
    }
}
