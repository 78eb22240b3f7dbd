//! Lists and tabs by the calls that no program makes.

use crate::drawing::draws;
use std::alloc::Global;
use tui_cells::Mem;
use tui_lists::{List, ListItem, Tabs};
use tui_text::{Line, Text};

fn items(alloc: Global, text: &'static str) -> Mem<Vec<ListItem<'static>>> {
    let item = ListItem::new(Text::raw(alloc, text)?);
    Ok(vec![in alloc; item]?)
}

/// A list whose items have been replaced.
fn replaced(alloc: Global) -> Mem<List<'static>> {
    let mut list = List::new(alloc, items(alloc, "a")?)?;
    list.items(items(alloc, "b")?)?;
    Ok(list)
}

#[test]
fn a_list_is_drawn_without_a_state(rt: HostRuntime) -> Mem<()> {
    let copy = replaced(rt.alloc())?.clone()?;
    assert!(&rt; draws(rt.alloc(), &copy, (1, 1), "b\n")?);
    Ok(())
}

#[test]
fn tabs_are_copied(rt: HostRuntime) -> Mem<()> {
    let title = Line::raw(rt.alloc(), "a")?;
    let tabs = Tabs::new(rt.alloc(), vec![in rt.alloc(); title]?)?;
    drop(tabs.clone()?);
    Ok(())
}
