//! Padding: `[left, right, top, bottom]`.

ghost use Rattle.tui_schema.specs.Kinds.Padding.{padding_of};

use crate::field::Field;
use crate::kinds::four::read_four;
use serde_json::Value;
use std::alloc::Global;
use tui_cells::Mem;
use tui_frames::Padding;
use tui_json::{Explains, Fault, Kind, KindError, Wanted, elements_fault};

impl<'v> Kind<'v, Field> for Padding {
    ghost use Rattle.tui_frames.specs.declared.padding.Padding.{Padding};

    ghost AsData = { Padding };

    ghost as_data = { λ padding. padding };

    ghost kind = { padding_of };

    #[tactic(auto, unfolding(crate::specs::Kinds::Padding::padding_of))]
    fn read(alloc: Global, value: &'v Value) -> Result<Padding, KindError> {
        let (left, right, top, bottom) = read_four(alloc, value)?;
        Ok(Padding {
            left,
            right,
            top,
            bottom,
        })
    }
}

impl<'v> Explains<'v, Field> for Padding {
    ghost use Rattle.tui_json.specs.Faults.{elements_fault};
    ghost use Rattle.tui_schema.specs.Faults.{a_padding, short_fault};

    ghost wanted = { a_padding };

    ghost part_fault = { elements_fault short_fault };

    fn wanted() -> Wanted<'v> {
        Wanted::Words("`[left, right, top, bottom]`, whole numbers from 0 to 65535")
    }

    fn part_fault(alloc: Global, value: &'v Value) -> Mem<Option<Fault<'v>>> {
        elements_fault::<u16, Field>(alloc, value)
    }
}
