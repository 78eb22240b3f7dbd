//! Bar charts, sparklines and gauges by the calls that no program makes.

use std::alloc::Global;
use tui_bars::{Bar, BarChart, Gauge, LineGauge, Sparkline, SparklineBar};
use tui_cells::Mem;
use tui_text::Line;

/// One bar with a label.
fn bars<'a>(alloc: Global) -> Mem<Vec<Bar<'a>>> {
    let bar = Bar::new(2).label(Line::raw(alloc, "a")?);
    Ok(vec![in alloc; bar]?)
}

#[test]
fn charts_are_copied(rt: HostRuntime) -> Mem<()> {
    let chart = BarChart::vertical(rt.alloc(), bars(rt.alloc())?)?;
    drop(chart.clone()?);
    Ok(())
}

#[test]
fn charts_are_horizontal(rt: HostRuntime) -> Mem<()> {
    drop(BarChart::horizontal(rt.alloc(), bars(rt.alloc())?)?);
    Ok(())
}

#[test]
fn sparklines_are_copied(rt: HostRuntime) -> Mem<()> {
    let bars = vec![in rt.alloc(); SparklineBar::from(2)]?;
    let line = Sparkline::new(rt.alloc()).data(bars);
    drop(line.clone()?);
    Ok(())
}

#[test]
fn gauges_are_copied(rt: HostRuntime) -> Mem<()> {
    drop(Gauge::default().clone()?);
    Ok(())
}

#[test]
fn line_gauges_are_copied(rt: HostRuntime) -> Mem<()> {
    let gauge = LineGauge::default().label(Line::raw(rt.alloc(), "a")?);
    drop(gauge.clone()?);
    Ok(())
}
