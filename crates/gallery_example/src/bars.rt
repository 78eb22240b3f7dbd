//! Gauge, LineGauge, BarChart and Sparkline.

use std::alloc::Global;
use tui::buffer::{Buffer, Mem};
use tui::layout::{Fraction, Rect};
use tui::style::{Color, Style};
use tui::text::{Line, Span};
use tui::widgets::{BarChart, BarGroup, Block, Gauge, LineGauge, Sparkline, SparklineBar, Widget};

pub fn draw_gauge(alloc: Global, buffer: &mut Buffer) -> anyhow::Result<()> {
    let mut block = Block::bordered(alloc);
    block.title(Line::raw(alloc, "Disk")?)?;
    let disk = Gauge::default()
        .percent(62)?
        .gauge_style(Style::new().fg(Color::Green))
        .block(block);
    disk.render(alloc, Rect::new(0, 0, 30, 3), buffer)?;
    let time = Gauge::default()
        .ratio(Fraction::new(47, 60))?
        .use_unicode(true)
        .label(Span::raw("47 of 60 s"))
        .gauge_style(Style::new().fg(Color::Cyan));
    time.render(alloc, Rect::new(0, 4, 30, 1), buffer)?;
    Ok(())
}

fn thick_line<'a>(share: Fraction) -> anyhow::Result<LineGauge<'a>> {
    let line = LineGauge::default()
        .filled_symbol("━")
        .filled_style(Style::new().fg(Color::Green))
        .unfilled_style(Style::new().fg(Color::DarkGray));
    Ok(line.ratio(share)?)
}

fn shaded_line<'a>(label: Line<'a>, share: Fraction) -> anyhow::Result<LineGauge<'a>> {
    let line = LineGauge::default()
        .label(label)
        .filled_symbol("█")
        .unfilled_symbol("░")
        .filled_style(Style::new().fg(Color::Yellow));
    Ok(line.ratio(share)?)
}

pub fn draw_line_gauge(alloc: Global, buffer: &mut Buffer) -> anyhow::Result<()> {
    let share = thick_line(Fraction::new(3, 4))?;
    share.render(alloc, Rect::new(0, 0, 30, 1), buffer)?;
    let tests = shaded_line(Line::raw(alloc, "tests")?, Fraction::new(9, 20))?;
    tests.render(alloc, Rect::new(0, 2, 30, 1), buffer)?;
    Ok(())
}

fn day<'a>(alloc: Global, name: &'a str, before_noon: u64, after_noon: u64) -> Mem<BarGroup<'a>> {
    let mut group = BarGroup::with_label(Line::raw(alloc, name)?, Vec::new(alloc));
    group.push_pair("am", before_noon)?;
    group.push_pair("pm", after_noon)?;
    Ok(group)
}

pub fn draw_bar_chart(alloc: Global, buffer: &mut Buffer) -> anyhow::Result<()> {
    let days = vec![in alloc; day(alloc, "Mon", 4, 8)?, day(alloc, "Tue", 6, 3)?]?;
    let chart = BarChart::grouped(days)
        .bar_width(3)
        .bar_gap(1)
        .group_gap(3)
        .bar_style(Style::new().fg(Color::Cyan))
        .value_style(Style::new().fg(Color::Black).bg(Color::Cyan));
    chart.render(alloc, Rect::new(0, 0, 20, 7), buffer)?;
    Ok(())
}

pub fn draw_sparkline(alloc: Global, buffer: &mut Buffer) -> anyhow::Result<()> {
    let mut bars = Vec::new(alloc);
    for value in [1, 2, 4, 6, 8, 10, 12, 14, 16, 14, 12] {
        bars.push(SparklineBar::from(value))?;
    }
    bars.push(SparklineBar::default())?;
    for value in [8, 6, 9, 11, 16, 13, 5, 3, 0, 2, 4, 7] {
        bars.push(SparklineBar::from(value))?;
    }
    let sparkline = Sparkline::new(alloc)
        .data(bars)
        .absent_value_symbol("·")
        .style(Style::new().fg(Color::Yellow));
    sparkline.render(alloc, Rect::new(0, 0, 24, 2), buffer)?;
    Ok(())
}
