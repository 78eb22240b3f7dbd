//! How a month is drawn.

ghost use Rattle.std.specs.Prelude.{◌≡◌, ◌+◌, ◌*◌, ◌<◌, IsOk, IsTrue, OnOk, min, option_map, true};
ghost use Rattle.std.specs.List.{list_all};
ghost use Rattle.tui_calendar.specs.Drawing.{monthly_drawing};
ghost use Rattle.tui_calendar.specs.Month.{date_data, start_of, weeks_of};
ghost use Rattle.tui_calendar.specs.Monthly.{background, blank_slot, gap_style, monthly_data, slot_data, slot_of};
ghost use Rattle.tui_calendar.specs.MonthlyStrokes.{month_layers, monthly_layers, place_layers, sheet_layers, slot_layers, below_header, week_layers, weekdays_layers};
ghost use Rattle.tui_cells.specs.Layers.{KeptOutside, Painted};
ghost use Rattle.tui_cells.specs.Rect.{covers, is_empty};
ghost use Rattle.tui_frames.specs.Footprint.{footprint_if};
ghost use Rattle.tui_frames.specs.InBlock.{IsAllocationFreeIfBlock, in_block_layers};
ghost use Rattle.tui_clusters.specs.Printable.{is_printable};
ghost use Rattle.tui_text.specs.Setting.{set_layers, styled_text};

use super::texts::{day, heading};
use crate::date_styler::DateStyler;
use crate::month::{place, start, weeks};
use crate::monthly::Monthly;
use arrayvec::ArrayString;
use jiff::civil::Date;
use std::alloc::Global;
use tui_cells::{Buffer, Mem, Position, Rect, Style, Widget};
use tui_frames::{BlockExt, paint_if_some};
use tui_text::{Alignment, Span, below, paint_spans, set_stringn_in};

/// What is drawn in a place: two characters and their style.
#[derive(Drop)]
struct Slot {
    text: ArrayString<2>,
    style: Style,
}

impl<'a, DS: DateStyler> Monthly<'a, DS> {
    /// Returns a style with only the background of the default style.
    fn background(&self) -> Style
        ensures { result ≡ background self.now.default_style }
    {
        match self.default_style.bg {
            None => Style::new(),
            Some(color) => Style::new().bg(color),
        }
    }

    fn blank_slot(&self) -> Slot
        ensures is { slot_data result ≡ blank_slot (monthly_data self.now) }
        ensures printable { list_all is_printable result.text.bytes ≡ true }
    {
        let mut text = ArrayString::new();
        text.push_str("  ");
        Slot {
            text,
            style: self.background(),
        }
    }

    #[tactic(auto, unfolding(crate::specs::Monthly::slot_of))]
    fn slot(&self, date: Option<Date>) -> Slot
        ensures is { slot_data result ≡ slot_of (DS.date_style self.now.events) (monthly_data self.now) (option_map date_data date) }
        ensures printable { list_all is_printable result.text.bytes ≡ true }
    {
        let Some(date) = date else {
            return self.blank_slot();
        };
        let plain = date.to_plain();
        if plain.month == self.display_date.to_plain().month {
            return Slot {
                text: day(plain.day),
                style: self.default_style.patch(self.events.get_style(date)),
            };
        }
        match self.surrounding {
            None => self.blank_slot(),
            Some(style) => Slot {
                text: day(plain.day),
                style: self
                    .default_style
                    .patch(style)
                    .patch(self.events.get_style(date)),
            },
        }
    }

    /// Returns the style of the space before a day.
    fn gap_style(&self, column: u8) -> Style
        ensures { result ≡ gap_style (monthly_data self.now) column }
    {
        if column == 0 {
            Style::new()
        } else {
            self.background()
        }
    }

    /// Draws the slot of a place. `start` is the day number of the first place.
    #[tactic(auto, unfolding(crate::specs::MonthlyStrokes::place_layers))]
    fn paint_place(
        &self,
        buf: &mut Buffer,
        inner: Rect,
        corner: Position,
        start: i32,
        row: u8,
        column: u8,
    ) -> Mem<()>
        requires start { start ≡ start_of (date_data self.now.display_date) }
        requires row { row < weeks_of (date_data self.now.display_date) }
        requires week { row < 6 }
        requires column { column < 7 }
        ensures ok { OnOk result
            (Painted (place_layers (DS.date_style self.now.events) (monthly_data self.now) inner corner.x corner.y row column) buf.old buf.new) }
        ensures kept { KeptOutside (covers inner) buf.old buf.new }
        ensures allocation_free { IsOk result }
    {
        let slot = self.slot(place(self.display_date, start, 7 * row + column));
        let at = Position {
            x: corner.x.saturating_add(u16::from(3 * column)),
            y: corner.y,
        };
        paint_slot(buf, inner, at, self.gap_style(column), &slot)
    }

    fn paint_week(
        &self,
        buf: &mut Buffer,
        inner: Rect,
        corner: Position,
        start: i32,
        row: u8,
    ) -> Mem<()>
        requires start { start ≡ start_of (date_data self.now.display_date) }
        requires row { row < weeks_of (date_data self.now.display_date) }
        requires week { row < 6 }
        ensures ok { OnOk result
            (Painted (week_layers (DS.date_style self.now.events) (monthly_data self.now) inner corner.x corner.y row 0 7) buf.old buf.new) }
        ensures kept { KeptOutside (covers inner) buf.old buf.new }
        ensures allocation_free { IsOk result }
    {
        for column in 0..7 {
            self.paint_place(buf, inner, corner, start, row, column)?;
        }
        Ok(())
    }

    /// Draws the weeks for which there is a row.
    fn paint_weeks(&self, buf: &mut Buffer, inner: Rect, rest: Rect) -> Mem<()>
        ensures ok { OnOk result (Painted (sheet_layers (DS.date_style self.now.events) (monthly_data self.now) inner rest) buf.old buf.new) }
        ensures kept { KeptOutside (covers inner) buf.old buf.new }
        ensures allocation_free { IsOk result }
    {
        let start = start(self.display_date);
        let count = cut_weeks(weeks(self.display_date), rest.height);
        for row in 0..count {
            let corner = Position {
                x: rest.x,
                y: rest.y.saturating_add(u16::from(row)),
            };
            self.paint_week(buf, inner, corner, start, row)?;
        }
        Ok(())
    }

    #[tactic(auto, using(tui_text::proofs::AllocationFreeTexts::printable_allocation_free), unfolding(crate::specs::MonthlyStrokes::month_layers))]
    fn paint_month(&self, buf: &mut Buffer, inner: Rect) -> Mem<()>
        ensures ok { OnOk result (Painted (month_layers (monthly_data self.now) inner self.now.month_header) buf.old buf.new) }
        ensures kept { KeptOutside (covers inner) buf.old buf.new }
        ensures allocation_free { IsOk result }
    {
        match self.month_header {
            None => Ok(()),
            Some(style) => {
                let text = heading(self.display_date);
                let spans = [Span::raw(text.as_str())];
                paint_spans(buf, inner, &spans, style, Alignment::Center)
            }
        }
    }

    #[tactic(auto, unfolding(crate::specs::MonthlyStrokes::weekdays_layers))]
    fn paint_weekdays(&self, buf: &mut Buffer, inner: Rect, rest: Rect) -> Mem<()>
        ensures ok { OnOk result (Painted (weekdays_layers inner rest self.now.weekdays_header) buf.old buf.new) }
        ensures kept { KeptOutside (covers inner) buf.old buf.new }
        ensures allocation_free { IsOk result }
    {
        match self.weekdays_header {
            None => Ok(()),
            Some(style) => {
                let corner = Position {
                    x: rest.x,
                    y: rest.y,
                };
                let room = usize::from(rest.width);
                write_text(buf, inner, corner, " Su Mo Tu We Th Fr Sa", room, style)
            }
        }
    }

    /// Draws the headers that are shown, and the weeks.
    fn paint_content(&self, buf: &mut Buffer, inner: Rect) -> Mem<()>
        ensures ok { OnOk result (Painted (monthly_layers (DS.date_style self.now.events) (monthly_data self.now) inner) buf.old buf.new) }
        ensures kept { KeptOutside (covers inner) buf.old buf.new }
        ensures allocation_free { IsOk result }
    {
        self.paint_month(buf, inner)?;
        let rest = below_header(self.month_header, inner);
        self.paint_weekdays(buf, inner, rest)?;
        self.paint_weeks(buf, inner, below_header(self.weekdays_header, rest))
    }

    fn paint_in(&self, alloc: Global, buf: &mut Buffer, clip: Rect) -> Mem<()>
        ensures ok { OnOk result
            (Painted (in_block_layers (monthly_data self.now).block (monthly_layers (DS.date_style self.now.events) (monthly_data self.now)) clip)
            buf.old buf.new) }
        ensures kept { KeptOutside (footprint_if (monthly_data self.now).block clip) buf.old buf.new }
        ensures empty { IsTrue (is_empty clip) → IsOk result }
        ensures allocation_free { IsAllocationFreeIfBlock (monthly_data self.now).block → IsOk result }
    {
        if clip.is_empty() {
            return Ok(());
        }
        paint_if_some(alloc, buf, clip, &self.block)?;
        self.paint_content(buf, self.block.inner_if_some(clip))
    }
}

impl<'a, DS: DateStyler> Widget for Monthly<'a, DS> {
    ghost drawing = { λ m. monthly_drawing (DS.date_style m.events) (monthly_data m) };

    fn render(&self, alloc: Global, area: Rect, buf: &mut Buffer) -> Mem<()> {
        self.paint_in(alloc, buf, area.intersection(buf.area()))
    }
}

/// Writes a text in a clip that is in the buffer, as `set_stringn` does.
#[tactic(auto, using(tui_text::proofs::AllocationFreeTexts::printable_styled))]
fn write_text(
    buf: &mut Buffer,
    clip: Rect,
    at: Position,
    text: &str,
    room: usize,
    style: Style,
) -> Mem<()>
    ensures ok { OnOk result (Painted (set_layers clip at (styled_text text.now style) room) buf.old buf.new) }
    ensures kept { KeptOutside (covers clip) buf.old buf.new }
    ensures allocation_free { list_all is_printable text.now ≡ true → IsOk result }
{
    set_stringn_in(buf, clip, at, text, room, style)?;
    Ok(())
}

/// Writes a space and then the slot of a place.
fn paint_slot(buf: &mut Buffer, inner: Rect, at: Position, gap: Style, slot: &Slot) -> Mem<()>
    ensures ok { OnOk result (Painted (slot_layers inner at.x at.y gap (slot_data slot.now)) buf.old buf.new) }
    ensures kept { KeptOutside (covers inner) buf.old buf.new }
    ensures allocation_free { list_all is_printable slot.now.text.bytes ≡ true → IsOk result }
{
    write_text(buf, inner, at, " ", 1, gap)?;
    let right = Position {
        x: at.x.saturating_add(1),
        y: at.y,
    };
    write_text(buf, inner, right, slot.text.as_str(), 2, slot.style)
}

/// Returns a number of weeks, at most the number of rows.
fn cut_weeks(weeks: u8, rows: u16) -> u8
    ensures { result ≡ min weeks rows }
{
    if u16::from(weeks) <= rows {
        weeks
    } else {
        rows as u8
    }
}

/// Returns what is left of an area below a header, which may be hidden.
fn below_header(header: Option<Style>, area: Rect) -> Rect
    ensures { result ≡ below_header header area }
{
    match header {
        None => area,
        Some(_) => below(area),
    }
}
