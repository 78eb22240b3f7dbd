//! Draws one task.
#![tactic(auto)]

use std::alloc::Global;
use tui::buffer::{Buffer, Mem, row_text};
use tui::layout::{Alignment, Constraint, Direction, Flex, Fraction, Rect, Segment, split};
use tui::pager::{Entry, Key, Pager, PagerError};
use tui::panes::{Pane, Panes, Part};
use tui::report::{Column, Record, Report};
use tui::scene::Item;
use tui::style::{Color, Modifier, Style};
use tui::symbols::MergeStrategy;
use tui::terminal::{
    Cursor, Depth, KnownWidths, Output, Sink, WriteFault, settle, write_changes, write_full,
    write_styled_rows,
};
use tui::text::{Line, Text};
use tui::widgets::{
    Block, CalendarEventStore, Cell, Clear, Date, Fill, LineGauge, List, ListItem, ListState,
    Monthly, Paragraph, Row, Scrollbar, ScrollbarState, Shadow, StatefulWidget, Table, Widget,
    Wrap,
};

pub fn main(rt: HostRuntime) -> anyhow::Result<()> {
    let alloc = rt.alloc();
    let area = Rect::new(0, 0, 30, 7);
    let mut buffer = Buffer::empty(alloc, area)?;
    draw_dialog(alloc, area, &mut buffer)?;
    for row in 0..buffer.height() {
        println!(rt; "{}", row_text(alloc, &buffer, row)?.as_str())?;
    }
    Ok(())
}

fn came(place: usize, state: &mut ListState) {
    let shift = usize::from(place <= state.offset());
    *state.offset_mut() = state.offset().saturating_add(shift);
    if state.selected() >= Some(place) {
        state.select_next();
    }
}

fn went(place: usize, state: &mut ListState) {
    let shift = usize::from(place < state.offset());
    *state.offset_mut() = state.offset().saturating_sub(shift);
    if state.selected() > Some(place) {
        state.select_previous();
    }
}

fn draw_log(alloc: Global, lines: &str, area: Rect, buffer: &mut Buffer) -> Mem<()> {
    let log = Paragraph::new(Text::raw(alloc, lines)?).wrap(Wrap {
        trim: true,
        hyphens: false,
    });
    let count = log.line_count(alloc, area.width)?;
    let first = count.saturating_sub(usize::from(area.height)).min(65535) as u16;
    log.scroll((first, 0)).render(alloc, area, buffer)
}

fn draw_dialog(alloc: Global, screen: Rect, buffer: &mut Buffer) -> Mem<()> {
    Fill::new("·").render(alloc, screen, buffer)?;
    let area = screen
        .columns_from(screen.width.saturating_sub(18) / 2, 18)
        .rows_from(screen.height.saturating_sub(3) / 2, 3);
    Clear.render(alloc, area, buffer)?;
    Paragraph::new(Text::raw(alloc, "Leave? y/n")?)
        .block(Block::bordered(alloc).shadow(Shadow::dimmed()))
        .centered()
        .render(alloc, area, buffer)
}

fn draw_form(
    alloc: Global,
    fields: &[(&str, &str)],
    at: usize,
    area: Rect,
    buffer: &mut Buffer,
) -> Mem<()> {
    for y in 0..fields.len().min(usize::from(area.height)) {
        let (label, value) = fields[y];
        let row = area.rows_from(y as u16, 1);
        let field = row.columns_from(7, area.width);
        Paragraph::new(Text::raw(alloc, label)?).render(alloc, row.columns_from(0, 6), buffer)?;
        Fill::new("_").render(alloc, field, buffer)?;
        Paragraph::new(Text::raw(alloc, value)?).render(alloc, field, buffer)?;
        if y == at {
            buffer.set_style(field, Style::new().add_modifier(Modifier::REVERSED));
        }
    }
    Ok(())
}

fn price<'a>(alloc: Global, name: &'a str, price: &'a str) -> Mem<Row<'a>> {
    let name = Cell::new(Text::raw(alloc, name)?);
    let price = Cell::new(Text::raw(alloc, price)?.alignment(Alignment::Right));
    Ok(Row::new(vec![in alloc; name, price]?))
}

fn draw_prices<'a>(
    alloc: Global,
    rows: Vec<Row<'a>>,
    total: Row<'a>,
    area: Rect,
    buffer: &mut Buffer,
) -> anyhow::Result<()> {
    let widths = vec![in alloc; Constraint::Fill(1), Constraint::Length(5)]?;
    let table = Table::new(alloc, rows, widths)?
        .header(price(alloc, "Item", "Price")?)
        .footer(total);
    Ok(Widget::render(&table, alloc, area, buffer)?)
}

fn pane<'a>(alloc: Global, title: &'a str, text: &'a str) -> Mem<Paragraph<'a>> {
    let mut block = Block::bordered(alloc).merge_borders(MergeStrategy::Exact);
    block.title(Line::raw(alloc, title)?)?;
    Ok(Paragraph::new(Text::raw(alloc, text)?).block(block))
}

fn draw_panes(alloc: Global, screen: Rect, buffer: &mut Buffer) -> Mem<()> {
    let middle = screen.width / 2;
    let left = screen.columns_from(0, middle);
    let right = screen.columns_from(middle.saturating_sub(1), screen.width);
    pane(alloc, "Files", "notes\ndrafts")?.render(alloc, left, buffer)?;
    pane(alloc, "Text", "Read me.")?.render(alloc, right, buffer)
}

fn file_panes<'a>(
    alloc: Global,
    area: Rect,
    names: List<'a>,
    state: ListState,
    text: Paragraph<'a>,
) -> anyhow::Result<Panes<'a>> {
    let parts = vec![in alloc;
        Part {
            size: Constraint::Length(12),
            pane: Pane::Leaf(Item::List(names, state)),
        },
        Part {
            size: Constraint::Fill(1),
            pane: Pane::Leaf(Item::Paragraph(text)),
        },
    ]?;
    let root = Pane::Split {
        direction: Direction::Horizontal,
        spacing: 1,
        flex: Flex::Start,
        parts,
    };
    Ok(Panes::new(alloc, area, root)?)
}

fn show_text<'a>(
    alloc: Global,
    panes: &mut Panes<'a>,
    text: Paragraph<'a>,
    buffer: &mut Buffer,
) -> Mem<()> {
    if panes.rects().len() > 1 {
        panes.replace(alloc, 1, Item::Paragraph(text), buffer)?;
    }
    Ok(())
}

fn names_state(panes: &Panes<'_>) -> ListState {
    match panes.scene().items() {
        [first, ..] => list_state(&first.item),
        [] => ListState::default(),
    }
}

fn list_state(item: &Item<'_>) -> ListState {
    match item {
        Item::List(_, state) => *state,
        _ => ListState::default(),
    }
}

fn progress<'a>(alloc: Global, label: &'a str, share: Fraction) -> anyhow::Result<LineGauge<'a>> {
    let line = LineGauge::default()
        .filled_symbol("━")
        .filled_style(Style::new().fg(Color::Green))
        .label(Line::raw(alloc, label)?);
    Ok(line.ratio(share)?)
}

fn draw_progress(
    alloc: Global,
    done: u64,
    all: u64,
    area: Rect,
    buffer: &mut Buffer,
) -> anyhow::Result<()> {
    let label = format!(in alloc; "{done} of {all}")?;
    let line = progress(alloc, label.as_str(), Fraction::new(done, all))?;
    Ok(line.render(alloc, area, buffer)?)
}

fn draw_april(alloc: Global, days: &[i8], area: Rect, buffer: &mut Buffer) -> anyhow::Result<()> {
    let mut events = CalendarEventStore::new(alloc);
    for day in days.iter() {
        events.add(
            Date::new(2026, 4, *day)?,
            Style::new().add_modifier(Modifier::BOLD),
        )?;
    }
    let month = Monthly::new(Date::new(2026, 4, 1)?, &events)
        .show_month_header(Style::new())
        .show_weekdays_header(Style::new());
    Ok(month.render(alloc, area, buffer)?)
}

fn draw_with_bar(
    alloc: Global,
    list: &List<'_>,
    area: Rect,
    buffer: &mut Buffer,
    state: &mut ListState,
) -> Mem<()> {
    let beside = area.columns_from(0, area.width.saturating_sub(1));
    StatefulWidget::render(list, alloc, beside, buffer, state)?;
    let rows = usize::from(area.height);
    let places = list.len().saturating_sub(rows).saturating_add(1);
    let mut seen = ScrollbarState::new(places)
        .position(state.offset())
        .viewport_content_length(rows);
    let bar = Scrollbar::default().begin_symbol(None).end_symbol(None);
    bar.render(alloc, area, buffer, &mut seen)
}

fn write_colours<K: Sink>(buffer: &Buffer, sink: &mut K) -> Result<(), WriteFault> {
    write_styled_rows(buffer, Depth::True, sink)
}

fn write_frame<K: Sink>(shown: &Buffer, next: &Buffer, sink: &mut K) -> Result<(), WriteFault> {
    let output = Output {
        depth: Depth::Palette,
        widths: KnownWidths::Common,
        synchronized: true,
    };
    if shown.area() == next.area() {
        write_changes(shown, next, output, Cursor::Hidden, sink)
    } else {
        write_full(next, output, Cursor::Hidden, sink)
    }
}

const INLINE: Output = Output {
    depth: Depth::Palette,
    widths: KnownWidths::Common,
    synchronized: false,
};

/// Shows a frame. Sends only the changes if the frame that is shown has the same area.
fn show<K: Sink>(shown: Option<&Buffer>, next: &Buffer, sink: &mut K) -> Result<(), WriteFault> {
    match shown {
        Some(shown) if shown.area() == next.area() => {
            write_changes(shown, next, INLINE, Cursor::Hidden, sink)
        }
        _ => write_full(next, INLINE, Cursor::Hidden, sink),
    }
}

/// Shows two frames, and leaves the second one on the screen.
fn show_two<K: Sink>(first: &Buffer, next: &Buffer, sink: &mut K) -> Result<(), WriteFault> {
    show(None, first, sink)?;
    show(Some(first), next, sink)?;
    settle(sink)
}

fn rows_of(screen: Rect, part: Option<&Segment>) -> Rect {
    match part {
        Some(part) => screen.rows_from(part.start, part.width),
        None => Rect::ZERO,
    }
}

fn draw_frame(alloc: Global, screen: Rect, buffer: &mut Buffer) -> Mem<()> {
    let heights = [
        Constraint::Length(1),
        Constraint::Fill(1),
        Constraint::Length(1),
    ];
    let parts = split(alloc, screen.height, 0, &heights, Flex::Legacy)?;
    let header = Paragraph::new(Text::raw(alloc, "Mail")?).centered();
    header.render(alloc, rows_of(screen, parts.get(0)), buffer)?;
    let body = Block::bordered(alloc);
    body.render(alloc, rows_of(screen, parts.get(1)), buffer)?;
    let footer = Paragraph::new(Text::raw(alloc, "q quits")?);
    footer.render(alloc, rows_of(screen, parts.get(2)), buffer)
}

fn draw_names(alloc: Global, count: usize, area: Rect, buffer: &mut Buffer) -> anyhow::Result<()> {
    let mut names: Vec<String> = Vec::new(alloc);
    for number in 0..count {
        names.push(format!(in alloc; "page {number}")?)?;
    }
    let mut items = Vec::new(alloc);
    for name in names.iter() {
        items.push(ListItem::new(Text::raw(alloc, name.as_str())?))?;
    }
    let list = List::new(alloc, items)?;
    Ok(Widget::render(&list, alloc, area, buffer)?)
}

fn stock_report<'a>(alloc: Global, stock: &[(&'a str, &'a str)]) -> anyhow::Result<Report<'a>> {
    let mut columns = Vec::new(alloc);
    for (name, size) in [
        ("item", Constraint::Fill(1)),
        ("left", Constraint::Length(4)),
    ] {
        columns.push(Column { name, size })?;
    }
    let mut records = Vec::new(alloc);
    for (item, left) in stock {
        let mut cells = Vec::new(alloc);
        cells.push(*item)?;
        cells.push(*left)?;
        records.push(Record { cells })?;
    }
    Ok(Report::new(alloc, 40, 60, "Stock", columns, records)?)
}

fn print_pages(alloc: Global, report: &Report<'_>, area: Rect) -> anyhow::Result<String> {
    let mut out = String::new(alloc);
    let mut page = Buffer::empty(alloc, area)?;
    for at in 0..report.page_count() {
        page.reset(area);
        report.draw_page(alloc, at, &mut page)?;
        for row in 0..page.height() {
            out.push_str(row_text(alloc, &page, row)?.as_str())?;
            out.push('\n')?;
        }
        out.push('\x0c')?;
    }
    Ok(out)
}

fn run_keys(pager: &mut Pager<'_>, keys: &[Key]) -> Mem<()> {
    for key in keys {
        pager.key(*key)?;
    }
    Ok(())
}

fn with_new_entries<'a>(
    alloc: Global,
    pager: &Pager<'_>,
    entries: Vec<Entry<'a>>,
    place: usize,
) -> Result<Pager<'a>, PagerError> {
    let area = pager.screen().area();
    let mut next = Pager::new(alloc, area.width, area.height, entries)?;
    for _step in 0..place {
        next.key(Key::Down)?;
    }
    Ok(next)
}
