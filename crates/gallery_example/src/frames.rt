//! Clear, Fill and Block.

use std::alloc::Global;
use tui::buffer::{Buffer, Mem};
use tui::layout::{Alignment, Rect};
use tui::style::{Color, Modifier, Style};
use tui::text::{Line, Text};
use tui::widgets::{Block, BorderType, Borders, Clear, Fill, Paragraph, Shadow, Widget};

pub fn draw_clear(alloc: Global, buffer: &mut Buffer) -> anyhow::Result<()> {
    let dots = Fill::new("·").style(Style::new().fg(Color::Cyan));
    dots.render(alloc, Rect::new(0, 0, 24, 5), buffer)?;
    Clear.render(alloc, Rect::new(4, 1, 12, 3), buffer)?;
    let text = Paragraph::new(Text::raw(alloc, "blank here")?);
    text.render(alloc, Rect::new(5, 2, 10, 1), buffer)?;
    Ok(())
}

pub fn draw_fill(alloc: Global, buffer: &mut Buffer) -> anyhow::Result<()> {
    let bar = Fill::new(" ").style(Style::new().bg(Color::Blue));
    bar.render(alloc, Rect::new(0, 0, 24, 1), buffer)?;
    let line = Fill::new("─").style(Style::new().fg(Color::DarkGray));
    line.render(alloc, Rect::new(0, 1, 24, 1), buffer)?;
    let shades = Fill::new("▒").style(Style::new().fg(Color::Yellow));
    shades.render(alloc, Rect::new(0, 2, 16, 2), buffer)?;
    let wide = Fill::new("コ").style(Style::new().fg(Color::LightGreen));
    wide.render(alloc, Rect::new(18, 2, 6, 2), buffer)?;
    Ok(())
}

fn inbox<'a>(alloc: Global) -> Mem<Block<'a>> {
    let mut block = Block::bordered(alloc)
        .border_type(BorderType::Rounded)
        .border_style(Style::new().fg(Color::Cyan))
        .title_style(Style::new().add_modifier(Modifier::BOLD))
        .shadow(Shadow::dark_shade().style(Style::new().fg(Color::DarkGray)));
    block.title(Line::raw(alloc, "Inbox")?)?;
    block.title(Line::raw(alloc, "3 new")?.alignment(Alignment::Right))?;
    block.title_bottom(Line::raw(alloc, "q quits")?)?;
    Ok(block)
}

fn titled<'a>(mut block: Block<'a>, title: Line<'a>) -> Mem<Block<'a>> {
    block.title(title)?;
    Ok(block)
}

pub fn draw_block(alloc: Global, buffer: &mut Buffer) -> anyhow::Result<()> {
    inbox(alloc)?.render(alloc, Rect::new(1, 0, 18, 5), buffer)?;
    let title = Line::raw(alloc, "Double")?.alignment(Alignment::Center);
    let double = Block::bordered(alloc).border_type(BorderType::Double);
    titled(double, title)?.render(alloc, Rect::new(22, 0, 17, 3), buffer)?;
    let title = Line::raw(alloc, "Thick")?;
    let thick = Block::new(alloc)
        .border_type(BorderType::Thick)
        .borders(Borders::LEFT | Borders::BOTTOM);
    titled(thick, title)?.render(alloc, Rect::new(22, 3, 17, 3), buffer)?;
    Ok(())
}
