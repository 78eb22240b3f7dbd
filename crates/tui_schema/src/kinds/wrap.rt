//! How lines are wrapped: an object with the member `trim`, and optionally `hyphens`.

ghost use Rattle.tui_schema.specs.Kinds.Wrap.{wrap_of};

use crate::field::Field;
use crate::kinds::member::{member, member_fault, optional_member, optional_member_fault};
use serde_json::Value;
use std::alloc::Global;
use tui_cells::Mem;
use tui_json::{Explains, Fault, Kind, KindError, Wanted};
use tui_para::Wrap;

impl<'v> Kind<'v, Field> for Wrap {
    ghost use Rattle.tui_para.specs.declared.wrap.Wrap.{Wrap};

    ghost AsData = { Wrap };

    ghost as_data = { λ wrap. wrap };

    ghost kind = { wrap_of };

    #[tactic(auto, unfolding(crate::specs::Kinds::Wrap::wrap_of))]
    fn read(alloc: Global, value: &'v Value) -> Result<Wrap, KindError> {
        let trim = member(alloc, value, "trim")?;
        let hyphens: Option<bool> = optional_member(alloc, value, "hyphens")?;
        Ok(Wrap {
            trim,
            hyphens: hyphens.unwrap_or(false),
        })
    }
}

impl<'v> Explains<'v, Field> for Wrap {
    ghost use Rattle.tui_schema.specs.Faults.{a_wrap, wrap_parts};

    ghost wanted = { a_wrap };

    ghost part_fault = { wrap_parts };

    fn wanted() -> Wanted<'v> {
        Wanted::Words("an object with `trim`")
    }

    #[tactic(auto, unfolding(crate::specs::Faults::wrap_parts))]
    fn part_fault(alloc: Global, value: &'v Value) -> Mem<Option<Fault<'v>>> {
        if !value.is_object() {
            return Ok(None);
        }
        let trim = member_fault::<bool>(alloc, value, "trim")?;
        let hyphens = optional_member_fault::<bool>(alloc, value, "hyphens")?;
        Ok(trim.or(hyphens))
    }
}
