//! Monthly.

use std::alloc::Global;
use tui::buffer::Buffer;
use tui::layout::Rect;
use tui::style::{Color, Modifier, Style};
use tui::widgets::{CalendarEventStore, Date, Monthly, Widget};

pub fn draw_monthly(alloc: Global, buffer: &mut Buffer) -> anyhow::Result<()> {
    let mut events = CalendarEventStore::new(alloc);
    events.add(Date::new(2026, 4, 3)?, Style::new().fg(Color::Green))?;
    events.add(Date::new(2026, 4, 15)?, Style::new().fg(Color::Red))?;
    let month = Monthly::new(Date::new(2026, 4, 1)?, &events)
        .show_month_header(Style::new().add_modifier(Modifier::BOLD))
        .show_weekdays_header(Style::new().fg(Color::Cyan))
        .show_surrounding(Style::new().fg(Color::DarkGray));
    month.render(alloc, Rect::new(0, 0, 21, 7), buffer)?;
    Ok(())
}
