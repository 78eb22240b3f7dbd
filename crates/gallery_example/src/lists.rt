//! List, Table, Tabs and Scrollbar.

use std::alloc::Global;
use tui::buffer::{Buffer, Mem};
use tui::layout::{Constraint, Rect};
use tui::style::{Color, Modifier, Style};
use tui::text::{Line, Text};
use tui::widgets::{
    Block, Borders, Cell, List, ListItem, ListState, Paragraph, Row, Scrollbar,
    ScrollbarOrientation, ScrollbarState, StatefulWidget, Table, TableState, Tabs, Widget,
};

fn station<'a>(alloc: Global, name: &'a str) -> Mem<ListItem<'a>> {
    Ok(ListItem::new(Text::raw(alloc, name)?))
}

fn stations<'a>(alloc: Global) -> Mem<Vec<ListItem<'a>>> {
    let mut items = Vec::new(alloc);
    for name in ["Anholt", "Bergen", "Cuxhaven\nnorth mole", "Dover"] {
        items.push(station(alloc, name)?)?;
    }
    items.push(station(alloc, "Esbjerg")?.style(Style::new().fg(Color::Green)))?;
    items.push(station(alloc, "Fehmarn")?)?;
    Ok(items)
}

fn titled_list<'a>(alloc: Global, title: &'a str, items: Vec<ListItem<'a>>) -> Mem<List<'a>> {
    let mut block = Block::bordered(alloc);
    block.title(Line::raw(alloc, title)?)?;
    let symbol = Line::raw(alloc, "> ")?;
    Ok(
        List::new(alloc, items)?
            .block(block)
            .highlight_symbol(symbol),
    )
}

pub fn draw_list(alloc: Global, buffer: &mut Buffer) -> anyhow::Result<()> {
    let items = stations(alloc)?;
    let list = titled_list(alloc, "Stations", items)?
        .highlight_style(Style::new().add_modifier(Modifier::REVERSED))
        .scroll_padding(1);
    let mut state = ListState::default().with_selected(Some(4));
    StatefulWidget::render(&list, alloc, Rect::new(0, 0, 24, 7), buffer, &mut state)?;
    Ok(())
}

fn ship<'a>(alloc: Global, texts: [&'a str; 3]) -> Mem<Row<'a>> {
    let mut cells = Vec::new(alloc);
    for text in texts {
        cells.push(Cell::new(Text::raw(alloc, text)?))?;
    }
    Ok(Row::new(cells))
}

fn ships<'a>(alloc: Global) -> Mem<Vec<Row<'a>>> {
    let mut rows = Vec::new(alloc);
    for texts in [
        ["Anna", "4", "1,200"],
        ["Bertha", "11", "980"],
        ["Clara", "2", "15,640"],
        ["Dora", "7", "3,050"],
    ] {
        rows.push(ship(alloc, texts)?)?;
    }
    Ok(rows)
}

fn table_of<'a>(alloc: Global, rows: Vec<Row<'a>>) -> anyhow::Result<Table<'a>> {
    let widths = vec![in alloc;
        Constraint::Fill(1),
        Constraint::Length(6),
        Constraint::Length(8),
    ]?;
    Ok(Table::new(alloc, rows, widths)?)
}

fn with_ends<'a>(alloc: Global, table: Table<'a>) -> Mem<Table<'a>> {
    let bold = Style::new().add_modifier(Modifier::BOLD);
    let header = ship(alloc, ["Ship", "Berth", "Tons"])?.style(bold);
    let yellow = Style::new().fg(Color::Yellow);
    let footer = ship(alloc, ["4 ships", "", "20,870"])?.style(yellow);
    Ok(table.header(header).footer(footer))
}

pub fn draw_table(alloc: Global, buffer: &mut Buffer) -> anyhow::Result<()> {
    let table = with_ends(alloc, table_of(alloc, ships(alloc)?)?)?
        .highlight_symbol(Text::raw(alloc, ">")?)
        .row_highlight_style(Style::new().add_modifier(Modifier::REVERSED));
    let mut state = TableState::new().with_selected(Some(2));
    StatefulWidget::render(&table, alloc, Rect::new(0, 0, 34, 6), buffer, &mut state)?;
    Ok(())
}

pub fn draw_tabs(alloc: Global, buffer: &mut Buffer) -> anyhow::Result<()> {
    let mut titles = Vec::new(alloc);
    for title in ["Now", "Log", "Map", "Help"] {
        titles.push(Line::raw(alloc, title)?)?;
    }
    let tabs = Tabs::new(alloc, titles)?
        .select(Some(1))
        .highlight_style(Style::new().fg(Color::Yellow).add_modifier(Modifier::BOLD))
        .block(Block::new(alloc).borders(Borders::BOTTOM));
    tabs.render(alloc, Rect::new(0, 0, 30, 2), buffer)?;
    Ok(())
}

pub fn draw_scrollbar(alloc: Global, buffer: &mut Buffer) -> anyhow::Result<()> {
    let stations =
        "1 Anholt\n2 Bergen\n3 Cuxhaven\n4 Dover\n5 Esbjerg\n6 Fehmarn\n7 Gdansk\n8 Hull\n9 Ipswich";
    let text = Paragraph::new(Text::raw(alloc, stations)?).scroll((3, 0));
    text.render(alloc, Rect::new(0, 0, 23, 5), buffer)?;
    let mut down = ScrollbarState::new(5)
        .position(3)
        .viewport_content_length(5);
    Scrollbar::default().render(alloc, Rect::new(0, 0, 24, 5), buffer, &mut down)?;
    let mut across = ScrollbarState::new(41).viewport_content_length(23);
    let below = Scrollbar::new(ScrollbarOrientation::HorizontalBottom);
    below
        .thumb_style(Style::new().fg(Color::Cyan))
        .render(alloc, Rect::new(0, 5, 23, 1), buffer, &mut across)?;
    Ok(())
}
