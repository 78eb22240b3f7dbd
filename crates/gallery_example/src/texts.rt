//! Paragraph and the logo.

use std::alloc::Global;
use tui::buffer::Buffer;
use tui::layout::{Alignment, Rect};
use tui::style::{Color, Modifier, Style};
use tui::text::{Line, Span, Text};
use tui::widgets::{Block, Padding, Paragraph, RatatuiLogo, Widget, Wrap};

pub fn draw_paragraph(alloc: Global, buffer: &mut Buffer) -> anyhow::Result<()> {
    let bold = Style::new().add_modifier(Modifier::BOLD);
    let mut closed = Line::raw(alloc, "The harbour is ")?;
    closed.push_span(Span::styled("closed", Style::new().fg(Color::LightRed)))?;
    closed.push_span(Span::raw(" from ten at night until the fog has gone."))?;
    let mut text = Text::new(alloc);
    text.push_line(Line::styled(alloc, "Notice to all ships", bold)?.alignment(Alignment::Center))?;
    text.push_line(Line::new(alloc))?;
    text.push_line(closed)?;
    let mut block = Block::bordered(alloc).padding(Padding::horizontal(1));
    block.title(Line::raw(alloc, "Harbour")?)?;
    let paragraph = Paragraph::new(text)
        .wrap(Wrap {
            trim: true,
            hyphens: false,
        })
        .block(block);
    paragraph.render(alloc, Rect::new(0, 0, 30, 7), buffer)?;
    Ok(())
}

pub fn draw_logo(alloc: Global, buffer: &mut Buffer) -> anyhow::Result<()> {
    RatatuiLogo::small().render(alloc, Rect::new(0, 0, 27, 2), buffer)?;
    Ok(())
}
