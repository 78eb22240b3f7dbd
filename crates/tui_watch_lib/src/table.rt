//! The processes, as a table.

ghost use Rattle.std.specs.Prelude.{◌≡◌, OnOk};

use crate::drawing::{draw_text, tenths_text};
use crate::process::Process;
use crate::processors::Processors;
use crate::reading::MachineReading;
use std::alloc::Global;
use tui_cells::{Buffer, Mem, Modifier, NoMemory, Rect, Style, Widget};
use tui_layout::Constraint;
use tui_table::{Cell, Row, Table};
use tui_text::{Alignment, Text};

/// The widths of the columns: number, state, share of a processor in percent with one decimal, memory in MiB, and name.
const WIDTHS: [Constraint; 5] = [
    Constraint::Length(7),
    Constraint::Length(1),
    Constraint::Length(6),
    Constraint::Length(8),
    Constraint::Fill(1),
];

// The cells of a process whose texts have to be formatted.
#[derive(Drop)]
struct Figures {
    number: String,
    share: String,
    memory: String,
}

// The texts of a row: number, state, share of a processor, memory, and name.
#[derive(Clone, Copy)]
struct RowTexts<'a> {
    number: &'a str,
    state: &'a str,
    share: &'a str,
    memory: &'a str,
    name: &'a str,
}

/// The header of the table.
const HEADER: RowTexts<'static> = RowTexts {
    number: "PID",
    state: "S",
    share: "CPU%",
    memory: "MiB",
    name: "NAME",
};

/// Draws a table of the processes, as far as there are rows for them.
pub(crate) fn draw_processes(
    alloc: Global,
    reading: &MachineReading,
    area: Rect,
    buf: &mut Buffer,
) -> Mem<()>
    ensures area { OnOk result (buf.new.area ≡ buf.old.area) }
{
    if reading.processes.is_empty() {
        return draw_text("no processes", area, buf);
    }
    let elapsed = reading.elapsed;
    let mut figures = Vec::new(alloc);
    for process in reading.processes.iter().take(usize::from(area.height)) {
        figures.push(figures_of(alloc, process, elapsed)?)?;
    }
    let rows = rows_of(alloc, &reading.processes, &figures)?;
    draw_table(alloc, rows, area, buf)
}

fn draw_table(alloc: Global, rows: Vec<Row<'_>>, area: Rect, buf: &mut Buffer) -> Mem<()>
    ensures area { OnOk result (buf.new.area ≡ buf.old.area) }
{
    let header = row_of(alloc, HEADER)?;
    let widths = Vec::from_slice(alloc, &WIDTHS)?;
    match Table::new(alloc, rows, widths) {
        Ok(table) => {
            let table = table.header(header.style(Style::new().add_modifier(Modifier::REVERSED)));
            Widget::render(&table, alloc, area, buf)
        }
        Err(_) => Err(NoMemory),
    }
}

fn figures_of(alloc: Global, process: &Process, elapsed: Option<Processors>) -> Mem<Figures> {
    let number = process.number;
    let mebibytes = process.kilobytes / 1024;
    Ok(Figures {
        number: format!(in alloc; "{number}")?,
        share: match process.per_mille(elapsed) {
            Some(share) => tenths_text(alloc, share)?,
            None => String::from_str(alloc, "-")?,
        },
        memory: format!(in alloc; "{mebibytes}")?,
    })
}

fn rows_of<'a>(
    alloc: Global,
    processes: &'a [Process],
    figures: &'a [Figures],
) -> Mem<Vec<Row<'a>>> {
    let mut rows = Vec::new(alloc);
    for (process, figures) in processes.iter().zip(figures.iter()) {
        let texts = RowTexts {
            number: figures.number.as_str(),
            state: process.state.as_str(),
            share: figures.share.as_str(),
            memory: figures.memory.as_str(),
            name: process.name.as_str(),
        };
        rows.push(row_of(alloc, texts)?)?;
    }
    Ok(rows)
}

// The name is aligned to the left, the other cells to the right.
fn row_of<'a>(alloc: Global, texts: RowTexts<'a>) -> Mem<Row<'a>> {
    let mut cells = Vec::new(alloc);
    for text in [texts.number, texts.state, texts.share, texts.memory] {
        cells.push(Cell::new(Text::raw(alloc, text)?.alignment(Alignment::Right)))?;
    }
    cells.push(Cell::new(Text::raw(alloc, texts.name)?))?;
    Ok(Row::new(cells))
}
