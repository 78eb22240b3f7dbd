//! The widgets of leaves and changes.

ghost use Rattle.serde_json.specs.View.{view};
ghost use Rattle.tui_json.specs.Refusals.{Gives};
ghost use Rattle.tui_scene.specs.Item.{item_data};
ghost use Rattle.tui_panes_run.specs.Widgets.{widget_in};

use crate::refusal::PanesRefusal;
use serde_json::Value;
use std::alloc::Global;
use tui_json::InputError;
use tui_scene::Item;
use tui_schema::item_without_area;

/// Reads a widget from a JSON value. Its area is that of its leaf, which is known once the tree is read. Rejects the
/// first field of the widget that is missing or of the wrong kind, with this number.
pub(crate) fn read_item<'v>(
    alloc: Global,
    number: usize,
    value: &'v Value,
) -> Result<Item<'v>, InputError<PanesRefusal>>
    ensures { Gives item_data result (widget_in number (view value.now)) }
{
    match item_without_area(alloc, value, number) {
        Ok(item) => Ok(item),
        Err(InputError::Refused(refusal)) => {
            Err(InputError::Refused(PanesRefusal::BadField(refusal)))
        }
        Err(InputError::NoMemory) => Err(InputError::NoMemory),
    }
}
