//! The last minutes, as sparklines.

ghost use Rattle.std.specs.Prelude.{◌≡◌, OnOk};

use crate::history::History;
use crate::reading::MachineReading;
use std::alloc::Global;
use tui_bars::{RenderDirection, Sparkline, SparklineBar};
use tui_cells::{Buffer, Color, Mem, Rect, Style, Widget};
use tui_frames::{Block, Borders};
use tui_layout::{Constraint, Flex, Segment, split};
use tui_text::Line;

/// The load in hundredths, the processors and the memory in thousandths.
#[derive(Clone, Copy)]
pub(crate) struct Trends {
    pub(crate) load: History,
    pub(crate) processors: History,
    pub(crate) memory: History,
}

// A history and how it is drawn: its title, the title if the newest value was not available, and the value at which a
// column is full.
#[derive(Clone, Copy)]
struct Trend<'a> {
    history: &'a History,
    title: &'static str,
    missing: &'static str,
    most: u64,
}

impl Trends {
    /// Adds the values of a reading.
    pub(crate) fn push(&mut self, reading: &MachineReading) {
        self.load.push(match reading.load {
            Some(load) => Some(load.one),
            None => None,
        });
        self.processors.push(match reading.elapsed {
            Some(elapsed) => Some(elapsed.per_mille()),
            None => None,
        });
        self.memory.push(match reading.memory {
            Some(memory) => Some(memory.per_mille()),
            None => None,
        });
    }
}

/// Draws the histories side by side, the newest point at the right. The column of the load is full at 1, or at the
/// greatest load if that is more. The columns of the processors and of the memory are full at 1000 thousandths.
pub(crate) fn draw_trends(alloc: Global, trends: &Trends, area: Rect, buf: &mut Buffer) -> Mem<()>
    ensures area { OnOk result (buf.new.area ≡ buf.old.area) }
{
    let widths = [Constraint::Fill(1); 3];
    let parts = split(alloc, area.width, 1, &widths, Flex::Start)?;
    let load = columns_of(area, parts.get(0));
    let processors = columns_of(area, parts.get(1));
    let memory = columns_of(area, parts.get(2));
    draw_trend(alloc, load_trend(trends), load, buf)?;
    draw_trend(alloc, processors_trend(trends), processors, buf)?;
    draw_trend(alloc, memory_trend(trends), memory, buf)
}

fn load_trend(trends: &Trends) -> Trend<'_> {
    Trend {
        history: &trends.load,
        title: "load",
        missing: "no loadavg",
        most: trends.load.greatest(100),
    }
}

fn processors_trend(trends: &Trends) -> Trend<'_> {
    Trend {
        history: &trends.processors,
        title: "processors",
        missing: "no stat",
        most: 1000,
    }
}

fn memory_trend(trends: &Trends) -> Trend<'_> {
    Trend {
        history: &trends.memory,
        title: "memory",
        missing: "no meminfo",
        most: 1000,
    }
}

fn columns_of(area: Rect, part: Option<&Segment>) -> Rect {
    match part {
        Some(part) => area.columns_from(part.start, part.width),
        None => Rect::ZERO,
    }
}

// Draws a trend under its title.
fn draw_trend(alloc: Global, trend: Trend<'_>, area: Rect, buf: &mut Buffer) -> Mem<()>
    ensures area { OnOk result (buf.new.area ≡ buf.old.area) }
{
    let mut bars = Vec::new(alloc);
    for point in trend.history.points().iter() {
        bars.push(SparklineBar::from(*point))?;
    }
    let title = if trend.history.newest().is_some() {
        trend.title
    } else {
        trend.missing
    };
    let mut block = Block::new(alloc).borders(Borders::TOP);
    block.title(Line::raw(alloc, title)?)?;
    Sparkline::new(alloc)
        .data(bars)
        .max(trend.most)
        .direction(RenderDirection::RightToLeft)
        .style(Style::new().fg(Color::Green))
        .block(block)
        .render(alloc, area, buf)
}
