//! The texts of errors.

use std::alloc::Global;
use std::fmt::Display;
use tui_cells::Mem;
use tui_pager_lib::PagerError;
use tui_pages_lib::ReportError;
use tui_panes_lib::{OrderError, PanesError};
use tui_scene::DrawError;
use tui_schema::{Field, SceneError};

fn prints<T: Display>(alloc: Global, error: &T, text: &str) -> Mem<bool> {
    Ok(format!(in alloc; "{error}")?.as_str() == text)
}

#[test]
fn of_scenes(rt: HostRuntime) -> Mem<()> {
    let refused = SceneError::BadField {
        item: None,
        field: Field::Width,
    };
    assert!(&rt; prints(rt.alloc(), &refused, "BadField")?);
    assert!(&rt; prints(rt.alloc(), &SceneError::NoMemory, "NoMemory")?);
    assert!(&rt; prints(rt.alloc(), &DrawError::NoMemory { at: 2 }, "NoMemory")?);
    Ok(())
}

#[test]
fn of_pagers_and_pages(rt: HostRuntime) -> Mem<()> {
    assert!(&rt; prints(rt.alloc(), &PagerError::TooSmall, "TooSmall")?);
    assert!(&rt; prints(rt.alloc(), &ReportError::TooTall { place: 7 }, "TooTall")?);
    Ok(())
}

#[test]
fn of_panes(rt: HostRuntime) -> Mem<()> {
    assert!(&rt; prints(rt.alloc(), &OrderError::NotOrder, "NotOrder")?);
    assert!(&rt; prints(rt.alloc(), &PanesError::TooDeep, "TooDeep")?);
    Ok(())
}
