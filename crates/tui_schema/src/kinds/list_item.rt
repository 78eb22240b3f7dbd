//! Items of a list: an object with `text` and optionally `style`, or else text.

ghost use Rattle.tui_schema.specs.Kinds.ListItem.{list_item_of};

use crate::field::Field;
use crate::kinds::member::{member_fault, part_fault, read};
use crate::kinds::style::{style_member, style_member_fault};
use serde_json::Value;
use std::alloc::Global;
use tui_cells::Mem;
use tui_json::{Explains, Fault, Kind, KindError, Wanted};
use tui_lists::ListItem;
use tui_text::Text;

impl<'v> Kind<'v, Field> for ListItem<'v> {
    ghost use Rattle.tui_lists.specs.ListItem.{ListItemData, list_item_data};

    ghost AsData = { ListItemData };

    ghost as_data = { list_item_data };

    ghost kind = { list_item_of };

    #[tactic(auto, unfolding(crate::specs::Kinds::ListItem::list_item_of))]
    fn read(alloc: Global, value: &'v Value) -> Result<ListItem<'v>, KindError> {
        match value.get("text") {
            None => Ok(ListItem::new(read(alloc, value)?)),
            Some(content) => {
                let content = read(alloc, content)?;
                let style = style_member(alloc, value, "style")?;
                Ok(ListItem::new(content).style(style))
            }
        }
    }
}

impl<'v> Explains<'v, Field> for ListItem<'v> {
    ghost use Rattle.tui_schema.specs.Faults.{a_list_item, list_item_parts};

    ghost wanted = { a_list_item };

    ghost part_fault = { list_item_parts };

    fn wanted() -> Wanted<'v> {
        Wanted::Words("a text, or an object with `text`")
    }

    #[tactic(auto, unfolding(crate::specs::Faults::list_item_parts))]
    fn part_fault(alloc: Global, value: &'v Value) -> Mem<Option<Fault<'v>>> {
        match value.get("text") {
            None => part_fault::<Text<'v>>(alloc, value),
            Some(_) => {
                let content = member_fault::<Text<'v>>(alloc, value, "text")?;
                Ok(content.or(style_member_fault(alloc, value)?))
            }
        }
    }
}
