//! Draws each widget of docs/GALLERY.md by calls, and prints its rows; then the dialog of docs/TASKS.md.
#![tactic(auto)]

mod bars;
mod frames;
mod lists;
mod months;
mod tasks;
mod texts;

use std::alloc::Global;
use tui::buffer::{Buffer, Mem, row_text};
use tui::layout::Rect;

/// Each widget's name, and the columns and rows of its screen.
const SCREENS: [(&str, u16, u16); 14] = [
    ("bar_chart", 20, 7),
    ("block", 40, 6),
    ("clear", 24, 5),
    ("fill", 24, 4),
    ("gauge", 30, 5),
    ("line_gauge", 30, 3),
    ("list", 24, 7),
    ("logo", 27, 2),
    ("monthly", 21, 7),
    ("paragraph", 30, 7),
    ("scrollbar", 24, 6),
    ("sparkline", 24, 2),
    ("table", 34, 6),
    ("tabs", 30, 2),
];

fn main(rt: HostRuntime) -> anyhow::Result<()> {
    let alloc = rt.alloc();
    for (name, width, height) in SCREENS {
        let mut buffer = Buffer::empty(alloc, Rect::new(0, 0, width, height))?;
        draw(alloc, name, &mut buffer)?;
        let rows = rows_of(alloc, &buffer)?;
        print!(rt; "== {name}\n{}", rows.as_str())?;
    }
    println!(rt; "== dialog")?;
    tasks::main(rt)
}

/// The rows as a terminal shows them: a cell that a wide symbol before it covers is left out.
fn rows_of(alloc: Global, buffer: &Buffer) -> Mem<String> {
    let mut text = String::new(alloc);
    for y in 0..buffer.height() {
        text.push_str(row_text(alloc, buffer, y)?.as_str())?;
        text.push('\n')?;
    }
    Ok(text)
}

fn draw(alloc: Global, name: &str, buffer: &mut Buffer) -> anyhow::Result<()> {
    match name {
        "bar_chart" => bars::draw_bar_chart(alloc, buffer),
        "block" => frames::draw_block(alloc, buffer),
        "clear" => frames::draw_clear(alloc, buffer),
        "fill" => frames::draw_fill(alloc, buffer),
        "gauge" => bars::draw_gauge(alloc, buffer),
        "line_gauge" => bars::draw_line_gauge(alloc, buffer),
        "list" => lists::draw_list(alloc, buffer),
        "logo" => texts::draw_logo(alloc, buffer),
        "monthly" => months::draw_monthly(alloc, buffer),
        "paragraph" => texts::draw_paragraph(alloc, buffer),
        "scrollbar" => lists::draw_scrollbar(alloc, buffer),
        "sparkline" => bars::draw_sparkline(alloc, buffer),
        "table" => lists::draw_table(alloc, buffer),
        _ => lists::draw_tabs(alloc, buffer),
    }
}
