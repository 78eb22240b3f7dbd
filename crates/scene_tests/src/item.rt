//! One item of a scene in JSON, in a given area.

use serde_json::Value;
use std::alloc::Global;
use tui_cells::{Mem, NoMemory, Rect};
use tui_scene::Item;
use tui_schema::{SceneError, item_of};

fn json(alloc: Global, text: &str) -> Mem<Value> {
    match Value::from_str(alloc, text) {
        Ok(value) => Ok(value),
        Err(_) => Err(NoMemory),
    }
}

/// The column of an item, and whether it is a fill.
fn fill_at(alloc: Global, value: &Value, x: u16) -> Result<(u16, bool), SceneError> {
    let placed = item_of(alloc, value, 3, Rect::new(x, 0, 2, 1))?;
    Ok((placed.area.x, matches!(&placed.item, Item::Fill(_))))
}

#[test]
fn an_item_is_read_in_a_given_area(rt: HostRuntime) -> Mem<()> {
    let value = json(rt.alloc(), r#"{"widget":"fill","area":1,"symbol":"ab"}"#)?;
    assert!(&rt; fill_at(rt.alloc(), &value, 7) == Ok((7, true)));
    Ok(())
}
