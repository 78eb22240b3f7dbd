//! Titles: an object with `line` and optionally `position`, or else a line.

ghost use Rattle.tui_schema.specs.Kinds.Title.{title_of};

use crate::field::Field;
use crate::kinds::member::{member_fault, named_fault, optional_named_member, part_fault, read};
use serde_json::Value;
use std::alloc::Global;
use tui_cells::Mem;
use tui_frames::{Title, TitlePosition};
use tui_json::{Explains, Fault, Kind, KindError, Wanted};
use tui_text::Line;

impl<'v> Kind<'v, Field> for Title<'v> {
    ghost use Rattle.tui_frames.specs.Block.{TitleData, title_data};

    ghost AsData = { TitleData };

    ghost as_data = { title_data };

    ghost kind = { title_of };

    #[tactic(auto, unfolding(crate::specs::Kinds::Title::title_of))]
    fn read(alloc: Global, value: &'v Value) -> Result<Title<'v>, KindError> {
        match value.get("line") {
            None => Ok(Title {
                line: read(alloc, value)?,
                position: None,
            }),
            Some(content) => Ok(Title {
                line: read(alloc, content)?,
                position: optional_named_member(alloc, value, "position")?,
            }),
        }
    }
}

impl<'v> Explains<'v, Field> for Title<'v> {
    ghost use Rattle.tui_schema.specs.Faults.{a_title, title_parts};

    ghost wanted = { a_title };

    ghost part_fault = { title_parts };

    fn wanted() -> Wanted<'v> {
        Wanted::Words("a line, or an object with `line`")
    }

    #[tactic(auto, unfolding(crate::specs::Faults::title_parts))]
    fn part_fault(alloc: Global, value: &'v Value) -> Mem<Option<Fault<'v>>> {
        match value.get("line") {
            None => part_fault::<Line<'v>>(alloc, value),
            Some(_) => {
                let line = member_fault::<Line<'v>>(alloc, value, "line")?;
                let position = named_fault::<TitlePosition>(alloc, value, "position")?;
                Ok(line.or(position))
            }
        }
    }
}
