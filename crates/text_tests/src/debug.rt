//! What Debug writes.

use std::alloc::Global;
use std::fmt::Debug;
use tui_cells::{Color, Mem, Modifier, Offset, Position, Rect, Style};
use tui_layout::{Constraint, Segment};
use tui_text::Span;

/// All colours with a name, and one of each kind with numbers.
const COLORS: [(Color, &str); 19] = [
    (Color::Reset, "Reset"),
    (Color::Black, "Black"),
    (Color::Red, "Red"),
    (Color::Green, "Green"),
    (Color::Yellow, "Yellow"),
    (Color::Blue, "Blue"),
    (Color::Magenta, "Magenta"),
    (Color::Cyan, "Cyan"),
    (Color::Gray, "Gray"),
    (Color::DarkGray, "DarkGray"),
    (Color::LightRed, "LightRed"),
    (Color::LightGreen, "LightGreen"),
    (Color::LightYellow, "LightYellow"),
    (Color::LightBlue, "LightBlue"),
    (Color::LightMagenta, "LightMagenta"),
    (Color::LightCyan, "LightCyan"),
    (Color::White, "White"),
    (Color::Rgb(100, 120, 140), "Rgb(100, 120, 140)"),
    (Color::Indexed(7), "Indexed(7)"),
];

fn is_written<T: Debug>(alloc: Global, value: &T, text: &str) -> Mem<bool> {
    Ok(format!(in alloc; "{value:?}")?.as_str() == text)
}

#[test]
fn of_colors(rt: HostRuntime) -> Mem<()> {
    for &(color, text) in &COLORS {
        assert!(&rt; is_written(rt.alloc(), &color, text)?);
    }
    Ok(())
}

#[test]
fn of_areas(rt: HostRuntime) -> Mem<()> {
    let area = Rect::new(1, 2, 3, 4);
    assert!(&rt;
        is_written(
            rt.alloc(),
            &area,
            "Rect { x: 1, y: 2, width: 3, height: 4 }"
        )?
    );
    Ok(())
}

#[test]
fn of_places(rt: HostRuntime) -> Mem<()> {
    assert!(&rt; is_written(rt.alloc(), &Position::new(1, 2), "Position { x: 1, y: 2 }")?);
    assert!(&rt; is_written(rt.alloc(), &Offset::new(-1, 2), "Offset { x: -1, y: 2 }")?);
    Ok(())
}

#[test]
fn of_columns(rt: HostRuntime) -> Mem<()> {
    let column = Segment { start: 1, width: 2 };
    assert!(&rt; is_written(rt.alloc(), &Constraint::Ratio(1, 2), "Ratio(1, 2)")?);
    assert!(&rt; is_written(rt.alloc(), &column, "Segment { start: 1, width: 2 }")?);
    Ok(())
}

/// What Debug writes of a red span.
const RED_SPAN: &str =
    "Span { content: \"a\", style: Style { fg: Some(Red), bg: None, add_modifier: Modifier { bits: 4 }, sub_modifier: Modifier { bits: 0 } } }";

#[test]
fn of_spans(rt: HostRuntime) -> Mem<()> {
    let style = Style::new().fg(Color::Red).add_modifier(Modifier::ITALIC);
    assert!(&rt; is_written(rt.alloc(), &Span::styled("a", style), RED_SPAN)?);
    Ok(())
}
