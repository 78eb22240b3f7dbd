//! The screen of a browser.

ghost use Rattle.std.specs.Prelude.{◌≡◌, ◌-◌, None, IfOk, OnOk, false, map, true};
ghost use Rattle.tui_cells.specs.Buffer.{IsFilled};
ghost use Rattle.tui_cells.specs.Cell.{blank};
ghost use Rattle.tui_cells.specs.Layers.{KeptOutside, Painted};
ghost use Rattle.tui_cells.specs.Rect.{covers, intersection_of};
ghost use Rattle.tui_files_lib.specs.Drawing.{
  BrowserDraws,
  DrawsFilter,
  ShowsNames,
  TypesIn,
  has_room,
  head_area,
  list_over,
  names_area,
  names_list,
  filter_area,
  row_item,
  selecting,
  status_area,
  titled_block,
};
ghost use Rattle.tui_files_lib.specs.Rows.{row_label};
ghost use Rattle.tui_frames.specs.Block.{block_data};
ghost use Rattle.tui_frames.specs.InBlock.{inner_of};
ghost use Rattle.tui_lists.specs.List.{ListMoves, list_data};
ghost use Rattle.tui_lists.specs.ListItem.{list_item_data};
ghost use Rattle.tui_lists.specs.ListStrokes.{list_layers};
ghost use Rattle.tui_lists.specs.Tabs.{reversed};

use crate::browser::Browser;
use crate::naming::label_of;
use crate::rows::NameRow;
use std::alloc::Global;
use tui_app::draw_too_small;
use tui_cells::{Buffer, Mem, Modifier, Position, Rect, StatefulWidget, Style, Widget};
use tui_frames::Block;
use tui_input::{Input, InputState};
use tui_lists::{List, ListItem, ListState};
use tui_para::{Paragraph, Wrap};
use tui_text::{Line, Text};

/// The least columns and rows of a screen that has room for a browser.
const LEAST_WIDTH: u16 = 12;

const LEAST_HEIGHT: u16 = 5;

/// The rows of the list of names, and the title above them.
#[derive(Clone, Copy)]
struct NameList<'a> {
    rows: &'a [NameRow],
    title: &'a str,
}

impl Browser {
    /// Draws into a blank buffer, and returns where the cursor is shown. The names are in the left half, and the
    /// beginning of the selected file is beside them. The last row shows the filter while it is typed, and the status
    /// otherwise. A screen without room for that shows `too small`.
    pub(crate) fn draw(&mut self, alloc: Global, buf: &mut Buffer) -> Mem<Option<Position>>
        requires { IsFilled buf.old.area blank buf.old }
        ensures draws { IfOk result (λ place. BrowserDraws self.old buf.new place self.new) }
        ensures area { OnOk result (buf.new.area ≡ buf.old.area) }
    {
        if has_room(buf.area()) {
            self.draw_in_room(alloc, buf)
        } else {
            draw_too_small(buf)?;
            Ok(None)
        }
    }

    fn draw_in_room(&mut self, alloc: Global, buf: &mut Buffer) -> Mem<Option<Position>>
        requires filled { IsFilled buf.old.area blank buf.old }
        requires room { has_room buf.old.area ≡ true }
        ensures names { OnOk result (ShowsNames (names_list self.new) (selecting self.old.state) self.new.state buf.new) }
        ensures page { OnOk result (self.new.page ≡ buf.old.area.height - 3) }
        ensures filter_text { IfOk result (λ place. DrawsFilter self.old buf.new place self.new) }
        ensures stays { OnOk result (self.new ≡ record self.old { state = self.new.state; page = self.new.page; filter_text = self.new.filter_text }) }
        ensures area { OnOk result (buf.new.area ≡ buf.old.area) }
    {
        // This call gives the proofs the shape of the buffer's rows.
        let _height = buf.height();
        let area = buf.area();
        self.page = usize::from(area.height.saturating_sub(3));
        self.state = self.state.with_selected(Some(self.row()));
        let title = self.title.as_str();
        let names = NameList {
            rows: &self.rows,
            title,
        };
        draw_names(alloc, names, &mut self.state, names_area(area), buf)?;
        self.draw_head(alloc, head_area(area), buf)?;
        let place = self.draw_below(alloc, area, buf)?;
        Ok(place)
    }

    /// Draws the beginning of the selected file, under its name.
    fn draw_head(&self, alloc: Global, area: Rect, buf: &mut Buffer) -> Mem<()>
        ensures { OnOk result (KeptOutside (covers area) buf.old buf.new) }
    {
        let title = match self.selected() {
            Some(name) => label_of(alloc, name)?,
            None => String::new(alloc),
        };
        draw_text(alloc, title.as_str(), self.head.as_str(), area, buf)
    }

    /// Draws the last row of a screen's area: the filter while it is typed, and the status otherwise.
    fn draw_below(&mut self, alloc: Global, area: Rect, buf: &mut Buffer) -> Mem<Option<Position>>
        ensures kept { OnOk result (KeptOutside (covers (status_area area)) buf.old buf.new) }
        ensures stays { OnOk result (self.new ≡ record self.old { filter_text = self.new.filter_text }) }
        ensures typed { IfOk result (λ place. self.old.is_typing ≡ true → TypesIn (filter_area area) buf.old.area self.old.filter_text self.new.filter_text place) }
        ensures other { IfOk result (λ place. self.old.is_typing ≡ false → (place ≡ None) × (self.new.filter_text ≡ self.old.filter_text)) }
    {
        if self.is_typing {
            return draw_filter(alloc, &mut self.filter_text, area, buf);
        }
        let status = self.status(alloc)?;
        draw_line(alloc, status.as_str(), status_area(area), buf)?;
        Ok(None)
    }

    /// Returns the message about a folder that could not be read, if there is one. Otherwise returns the selected row,
    /// from 1, and the number of rows. Then follow the number of names left out, the number of those that are not
    /// UTF-8, and the filter.
    fn status(&self, alloc: Global) -> Mem<String> {
        if !self.notice.is_empty() {
            return Ok(String::from_str(alloc, self.notice.as_str())?);
        }
        let count = self.rows.len();
        let number = self.row().saturating_add(1).min(count);
        let mut status = format!(in alloc; "{number}/{count}")?;
        let omitted = self.listing.omitted;
        if omitted > 0 {
            status.push_str(format!(in alloc; ", {omitted} more")?.as_str())?;
        }
        let not_utf8 = self.listing.not_utf8;
        if not_utf8 > 0 {
            status.push_str(format!(in alloc; ", {not_utf8} not UTF-8")?.as_str())?;
        }
        let filter_text = self.filter_text.text();
        if !filter_text.is_empty() {
            status.push_str(format!(in alloc; " /{filter_text}")?.as_str())?;
        }
        Ok(status)
    }
}

fn has_room(area: Rect) -> bool
    ensures { result ≡ has_room area }
{
    LEAST_WIDTH <= area.width && LEAST_HEIGHT <= area.height
}

fn names_area(area: Rect) -> Rect
    ensures { result ≡ names_area area }
{
    area.rows_from(0, area.height.saturating_sub(1))
        .columns_from(0, area.width / 2)
}

fn head_area(area: Rect) -> Rect
    ensures { result ≡ head_area area }
{
    area.rows_from(0, area.height.saturating_sub(1))
        .columns_from(area.width / 2, area.width - area.width / 2)
}

fn status_area(area: Rect) -> Rect
    ensures { result ≡ status_area area }
{
    area.rows_from(area.height.saturating_sub(1), 1)
}

/// Returns the area in which the filter is typed: the last row, after a slash.
fn filter_area(area: Rect) -> Rect
    ensures { result ≡ filter_area area }
{
    status_area(area).columns_from(1, area.width.saturating_sub(1))
}

/// Draws a slash and the filter in the last row of a screen's area. Returns where the cursor is shown.
fn draw_filter(
    alloc: Global,
    filter_text: &mut InputState,
    area: Rect,
    buf: &mut Buffer,
) -> Mem<Option<Position>>
    ensures kept { OnOk result (KeptOutside (covers (status_area area)) buf.old buf.new) }
    ensures typed { IfOk result (λ place. TypesIn (filter_area area) buf.old.area filter_text.old filter_text.new place) }
{
    draw_line(alloc, "/", status_area(area), buf)?;
    let input = Input::new();
    let inside = filter_area(area);
    StatefulWidget::render(&input, alloc, inside, buf, filter_text)?;
    Ok(input.cursor(inside, filter_text))
}

/// Draws wrapped text in borders with a title.
fn draw_text(alloc: Global, title: &str, text: &str, area: Rect, buf: &mut Buffer) -> Mem<()>
    ensures { OnOk result (KeptOutside (covers area) buf.old buf.new) }
{
    let block = titled_block(alloc, title)?;
    let wrap = Wrap {
        trim: false,
        hyphens: false,
    };
    Paragraph::new(Text::raw(alloc, text)?)
        .block(block)
        .wrap(wrap)
        .render(alloc, area, buf)?;
    Ok(())
}

/// Draws text without borders.
fn draw_line(alloc: Global, text: &str, area: Rect, buf: &mut Buffer) -> Mem<()>
    ensures { OnOk result (KeptOutside (covers area) buf.old buf.new) }
{
    Paragraph::new(Text::raw(alloc, text)?).render(alloc, area, buf)?;
    Ok(())
}

/// Draws the list of names in borders with its title.
fn draw_names(
    alloc: Global,
    names: NameList<'_>,
    state: &mut ListState,
    area: Rect,
    buf: &mut Buffer,
) -> Mem<()>
    ensures ok { let l = list_over (map row_item (map row_label names.entry.rows.now)) names.entry.title.now in
        OnOk result (Painted (list_layers l state.new (intersection_of area buf.old.area)) buf.old buf.new) }
    ensures moves { let l = list_over (map row_item (map row_label names.entry.rows.now)) names.entry.title.now in
        OnOk result (ListMoves l (inner_of l.block (intersection_of area buf.old.area)) state.old state.new) }
{
    let items = row_items(alloc, names.rows)?;
    let list = list_over(alloc, items, names.title)?;
    StatefulWidget::render(&list, alloc, area, buf, state)?;
    Ok(())
}

/// Returns the rows as items of one line each.
fn row_items<'r>(alloc: Global, rows: &'r [NameRow]) -> Mem<Vec<ListItem<'r>>>
    ensures { IfOk result (λ items. map list_item_data items.items ≡ map row_item (map row_label rows.now)) }
{
    let mut items = Vec::with_capacity(alloc, rows.len())?;
    'rows: for i in 0..rows.len() {
        items.push(row_item(alloc, &rows[i])?)?;
    }
    Ok(items)
}

fn row_item<'r>(alloc: Global, row: &'r NameRow) -> Mem<ListItem<'r>>
    ensures { IfOk result (λ item. list_item_data item ≡ row_item (row_label row.now)) }
{
    let mut text = Text::new(alloc);
    text.push_line(Line::raw(alloc, row.label.as_str())?)?;
    Ok(ListItem::new(text))
}

/// Returns a block with borders on all sides and a title.
fn titled_block<'t>(alloc: Global, title: &'t str) -> Mem<Block<'t>>
    ensures { IfOk result (λ block. block_data block ≡ titled_block title.now) }
{
    let mut block = Block::bordered(alloc);
    block.title(Line::raw(alloc, title)?)?;
    Ok(block)
}

fn reversed() -> Style
    ensures { result ≡ reversed }
{
    Style::new().add_modifier(Modifier::REVERSED)
}

/// Returns the list of these items in a block with a title.
fn list_over<'t>(alloc: Global, items: Vec<ListItem<'t>>, title: &'t str) -> Mem<List<'t>>
    ensures { IfOk result (λ list. list_data list ≡ list_over (map list_item_data items.entry.items) title.now) }
{
    let block = titled_block(alloc, title)?;
    let symbol = Line::raw(alloc, ">")?;
    let list = List::new(alloc, items)?;
    Ok(
        list.block(block)
            .highlight_symbol(symbol)
            .highlight_style(reversed()),
    )
}
