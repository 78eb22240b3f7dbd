//! The headline and the gauges.

ghost use Rattle.std.specs.Prelude.{◌≡◌, OnOk};

use crate::load::Load;
use crate::memory::Memory;
use crate::processors::Processors;
use crate::reading::MachineReading;
use std::alloc::Global;
use tui_bars::Gauge;
use tui_cells::{Buffer, Color, Mem, Position, Rect, Style, Widget};
use tui_layout::{Fraction, Segment};
use tui_text::{Span, set_stringn};

// What a gauge shows: its label, how much of the whole is used, and the color of the used part.
#[derive(Clone, Copy)]
struct Meter<'a> {
    label: &'a str,
    share: Fraction,
    color: Color,
}

/// Returns the rows of an area that a segment covers.
pub(crate) fn rows_of(area: Rect, part: Option<&Segment>) -> Rect {
    match part {
        Some(part) => area.rows_from(part.start, part.width),
        None => Rect::ZERO,
    }
}

/// Draws text into the first row of an area.
pub(crate) fn draw_text(text: &str, area: Rect, buf: &mut Buffer) -> Mem<()>
    ensures area { OnOk result (buf.new.area ≡ buf.old.area) }
{
    let at = Position {
        x: area.x,
        y: area.y,
    };
    set_stringn(buf, area, at, text, usize::from(area.width), Style::new())?;
    Ok(())
}

/// Draws the load, the uptime, and what the keys do.
pub(crate) fn draw_headline(
    alloc: Global,
    reading: &MachineReading,
    paused: bool,
    area: Rect,
    buf: &mut Buffer,
) -> Mem<()>
    ensures area { OnOk result (buf.new.area ≡ buf.old.area) }
{
    let load = load_text(alloc, reading.load)?;
    let uptime = uptime_text(alloc, reading.uptime)?;
    let keys = if paused {
        "paused: p goes on, q quits"
    } else {
        "p pauses, q quits"
    };
    let text = format!(in alloc; "{load}   {uptime}   {keys}")?;
    draw_text(text.as_str(), area, buf)
}

fn load_text(alloc: Global, load: Option<Load>) -> Mem<String> {
    match load {
        Some(load) => {
            let one = decimal(alloc, load.one)?;
            let five = decimal(alloc, load.five)?;
            let fifteen = decimal(alloc, load.fifteen)?;
            Ok(format!(in alloc; "load {one} {five} {fifteen}")?)
        }
        None => Ok(String::from_str(alloc, "no loadavg")?),
    }
}

// Formats a number of hundredths.
fn decimal(alloc: Global, hundredths: u64) -> Mem<String> {
    let whole = hundredths / 100;
    let part = hundredths % 100;
    Ok(format!(in alloc; "{whole}.{part:02}")?)
}

fn uptime_text(alloc: Global, uptime: Option<u64>) -> Mem<String> {
    match uptime {
        Some(seconds) => {
            let days = seconds / 86400;
            let hours = seconds / 3600 % 24;
            let minutes = seconds / 60 % 60;
            Ok(format!(in alloc; "up {days} d {hours:02}:{minutes:02}")?)
        }
        None => Ok(String::from_str(alloc, "no uptime")?),
    }
}

/// Draws three gauges, one a row: the use of the processors since the last reading, the memory and the swap.
pub(crate) fn draw_meters(
    alloc: Global,
    reading: &MachineReading,
    area: Rect,
    buf: &mut Buffer,
) -> Mem<()>
    ensures area { OnOk result (buf.new.area ≡ buf.old.area) }
{
    draw_processors(alloc, reading.elapsed, area.rows_from(0, 1), buf)?;
    draw_memory(alloc, reading.memory, area.rows_from(1, 1), buf)?;
    draw_swap(alloc, reading.memory, area.rows_from(2, 1), buf)
}

fn draw_processors(
    alloc: Global,
    elapsed: Option<Processors>,
    area: Rect,
    buf: &mut Buffer,
) -> Mem<()>
    ensures area { OnOk result (buf.new.area ≡ buf.old.area) }
{
    match elapsed {
        Some(elapsed) => {
            let count = elapsed.count;
            let percent = elapsed.per_mille() / 10;
            let label = format!(in alloc; "{count} processors {percent}%")?;
            let meter = Meter {
                label: label.as_str(),
                share: Fraction::new(elapsed.busy, elapsed.all()),
                color: Color::Green,
            };
            draw_gauge(alloc, meter, area, buf)
        }
        None => draw_text("no stat", area, buf),
    }
}

fn draw_memory(alloc: Global, memory: Option<Memory>, area: Rect, buf: &mut Buffer) -> Mem<()>
    ensures area { OnOk result (buf.new.area ≡ buf.old.area) }
{
    match memory {
        Some(memory) => {
            let label = share_text(alloc, "memory", memory.used(), memory.total)?;
            let meter = Meter {
                label: label.as_str(),
                share: Fraction::new(memory.used(), memory.total),
                color: Color::Cyan,
            };
            draw_gauge(alloc, meter, area, buf)
        }
        None => draw_text("no meminfo", area, buf),
    }
}

fn draw_swap(alloc: Global, memory: Option<Memory>, area: Rect, buf: &mut Buffer) -> Mem<()>
    ensures area { OnOk result (buf.new.area ≡ buf.old.area) }
{
    match memory {
        Some(memory) => {
            let label = share_text(alloc, "swap", memory.swap_used(), memory.swap_total)?;
            let meter = Meter {
                label: label.as_str(),
                share: Fraction::new(memory.swap_used(), memory.swap_total),
                color: Color::Yellow,
            };
            draw_gauge(alloc, meter, area, buf)
        }
        None => draw_text("no meminfo", area, buf),
    }
}

// Formats how much is used of the whole, in GiB.
fn share_text(alloc: Global, name: &str, used: u64, all: u64) -> Mem<String> {
    let used = tenths_text(alloc, gibibyte_tenths(used))?;
    let all = tenths_text(alloc, gibibyte_tenths(all))?;
    Ok(format!(in alloc; "{name} {used} of {all} GiB")?)
}

fn gibibyte_tenths(kilobytes: u64) -> u64 {
    kilobytes.saturating_mul(10) / 1_048_576
}

/// Formats a number of tenths.
pub(crate) fn tenths_text(alloc: Global, tenths: u64) -> Mem<String> {
    let whole = tenths / 10;
    let part = tenths % 10;
    Ok(format!(in alloc; "{whole}.{part}")?)
}

// Draws the gauge of a meter; its label alone if the whole is 0.
fn draw_gauge(alloc: Global, meter: Meter<'_>, area: Rect, buf: &mut Buffer) -> Mem<()>
    ensures area { OnOk result (buf.new.area ≡ buf.old.area) }
{
    match Gauge::default().ratio(meter.share) {
        Ok(gauge) => gauge
            .label(Span::raw(meter.label))
            .use_unicode(true)
            .gauge_style(Style::new().fg(meter.color))
            .render(alloc, area, buf),
        Err(_) => draw_text(meter.label, area, buf),
    }
}
