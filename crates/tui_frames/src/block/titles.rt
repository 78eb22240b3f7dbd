//! The titles of a block in their columns.

ghost use Rattle.std.specs.Prelude.{◌≡◌, ◌+◌, ◌-◌, ◌<◌, ◌≤◌, ◌++◌, [], ◌∷◌, List, min, IfOk, IsOk, OnOk, nat_lt, if◌then◌else◌};
ghost use Rattle.tui_cells.specs.Buffer.{Screen};
ghost use Rattle.tui_cells.specs.Layers.{KeptOutside, Painted};
ghost use Rattle.tui_cells.specs.Rect.{columns_from, covers};
ghost use Rattle.tui_frames.specs.Block.{block_data, title_data};
ghost use Rattle.tui_frames.specs.AllocationFree.{AreAllocationFreeTitles};
ghost use Rattle.tui_frames.specs.Strokes.{
  place_of,
  row_at,
  row_titles,
  strip_of,
  title_layers,
  titles_cut,
  titles_from,
  titles_in_middle,
  titles_to_end,
};
ghost use Rattle.tui_frames.specs.Titles.{spaced, title_width, titles_in, total};
ghost use Rattle.tui_text.specs.Line.{LineData, line_data};
ghost use Rattle.tui_text.specs.Setting.{AreAllocationFree};

use crate::block::Block;
use crate::block::sides::{last_row, row_of};
use crate::block::title::{Title, TitlePlace, title_width};
use crate::title_position::TitlePosition;
use tui_cells::{Buffer, Mem, Rect};
use tui_text::{Alignment, Line, paint_row};

fn row_at(clip: Rect, position: TitlePosition) -> u16
    ensures { result ≡ row_at clip position }
{
    match position {
        TitlePosition::Top => clip.y,
        TitlePosition::Bottom => last_row(clip),
    }
}

fn place_of(position: TitlePosition, alignment: Alignment) -> TitlePlace
    ensures { result ≡ place_of position alignment }
{
    TitlePlace {
        position,
        alignment,
    }
}

/// Where the titles of a place are painted: the clip of the block, and the columns of a row that titles can use.
#[derive(Clone, Copy)]
struct Strip {
    clip: Rect,
    row: Rect,
    place: TitlePlace,
}

/// The columns of a strip in which a title is painted, and the alignment of its line there.
#[derive(Clone, Copy)]
struct TitleColumns {
    first: u16,
    width: u16,
    alignment: Alignment,
}

/// The column at which a title begins, and the column before which titles are cut.
#[derive(Clone, Copy)]
struct CutStart {
    column: u16,
    cut: u128,
}

/// Returns the width of a title that is cut at both ends.
fn cut_width(strip: Rect, start: CutStart, width: u16) -> u16
    requires { start.column < strip.width }
    ensures is { result ≡ min width (strip.width - start.column) - (start.cut - start.column) }
    ensures within { start.column + result ≤ strip.width }
{
    let hidden = start.cut.saturating_sub(u128::from(start.column));
    let room = u128::from(width.min(strip.width - start.column));
    room.saturating_sub(hidden) as u16
}

fn cut_alignment(start: CutStart) -> Alignment
    ensures { result ≡ (if nat_lt start.column start.cut then Alignment.Right else Alignment.Left) }
{
    if u128::from(start.column) < start.cut {
        Alignment::Right
    } else {
        Alignment::Left
    }
}

impl<'a> Block<'a> {
    /// Returns the strip of a place: the row of its side, without the columns of borders that are set.
    fn strip(&self, clip: Rect, place: TitlePlace) -> Strip
        ensures { result ≡ record { clip = clip; row = strip_of (block_data self.now) clip place.position; place = place } }
    {
        let left = self.left_edge();
        let right = self.right_edge();
        let row = row_of(clip, row_at(clip, place.position));
        Strip {
            clip,
            row: row.columns_from(left, clip.width.saturating_sub(left + right)),
            place,
        }
    }

    /// Sets the title style and paints the line, in some columns of a strip.
    fn paint_title(
        &self,
        buf: &mut Buffer,
        strip: Strip,
        columns: TitleColumns,
        line: &Line<'_>,
    ) -> Mem<()>
        ensures ok { OnOk result
            (Painted (title_layers (block_data self.now) strip.clip (columns_from strip.row columns.first columns.width) columns.alignment (line_data line.now))
            buf.old buf.new) }
        ensures kept { KeptOutside (covers strip.clip) buf.old buf.new }
        ensures allocation_free { AreAllocationFree (line_data line.now).spans → IsOk result }
    {
        let part = strip.row.columns_from(columns.first, columns.width);
        let area = strip.clip.intersection(part);
        buf.set_style(area, self.title_style);
        paint_row(buf, area, line, columns.alignment)
    }

    /// Paints a title from a column on, if it belongs in the strip. Returns the column of the next one.
    fn paint_at(&self, buf: &mut Buffer, strip: Strip, column: u16, title: &Title<'_>) -> Mem<u32>
        requires { column < strip.row.width }
        ensures ok { IfOk result (λ next. (ts : List LineData) (final : Screen)
            → Painted (titles_from (block_data self.now) strip.clip strip.row next ts) buf.new final
            → Painted (titles_from (block_data self.now) strip.clip strip.row column (titles_in (block_data self.now) strip.place (title_data title.now ∷ []) ++ ts))
            buf.old final) }
        ensures kept { KeptOutside (covers strip.clip) buf.old buf.new }
        ensures allocation_free { AreAllocationFree (title_data title.now).line.spans → IsOk result }
    {
        if !self.is_in(strip.place, title) {
            return Ok(u32::from(column));
        }
        let columns = TitleColumns {
            first: column,
            width: title_width(&title.line),
            alignment: title.line.line_alignment().unwrap_or(Alignment::Left),
        };
        self.paint_title(buf, strip, columns, &title.line)?;
        Ok(u32::from(column) + u32::from(columns.width) + 1)
    }

    /// Paints the titles of a strip from a column on, while there is room.
    fn paint_from(&self, buf: &mut Buffer, strip: Strip, column: u16) -> Mem<()>
        ensures ok { OnOk result
            (Painted (titles_from (block_data self.now) strip.clip strip.row column (titles_in (block_data self.now) strip.place (block_data self.now).titles))
            buf.old buf.new) }
        ensures kept { KeptOutside (covers strip.clip) buf.old buf.new }
        ensures allocation_free { AreAllocationFreeTitles (block_data self.now).titles → IsOk result }
    {
        let mut column = u32::from(column);
        for title in &self.titles {
            if column >= u32::from(strip.row.width) {
                return Ok(());
            }
            column = self.paint_at(buf, strip, column as u16, title)?;
        }
        Ok(())
    }

    /// Paints a title that is cut at both ends, if it belongs in the strip. Returns the column of the next one.
    fn paint_cut_at(
        &self,
        buf: &mut Buffer,
        strip: Strip,
        start: CutStart,
        title: &Title<'_>,
    ) -> Mem<u32>
        requires { start.column < strip.row.width }
        ensures ok { IfOk result (λ next. (ts : List LineData) (final : Screen)
            → Painted (titles_cut (block_data self.now) strip.clip strip.row start.cut next ts) buf.new final
            → Painted (titles_cut (block_data self.now) strip.clip strip.row start.cut start.column
            (titles_in (block_data self.now) strip.place (title_data title.now ∷ []) ++ ts))
            buf.old final) }
        ensures kept { KeptOutside (covers strip.clip) buf.old buf.new }
        ensures allocation_free { AreAllocationFree (title_data title.now).line.spans → IsOk result }
    {
        if !self.is_in(strip.place, title) {
            return Ok(u32::from(start.column));
        }
        let columns = TitleColumns {
            first: start.column,
            width: cut_width(strip.row, start, title_width(&title.line)),
            alignment: cut_alignment(start),
        };
        self.paint_title(buf, strip, columns, &title.line)?;
        Ok(u32::from(start.column) + u32::from(columns.width) + 1)
    }

    /// Paints the titles of a strip, cut at both ends, while there is room.
    fn paint_cut(&self, buf: &mut Buffer, strip: Strip, cut: u128) -> Mem<()>
        ensures ok { OnOk result
            (Painted (titles_cut (block_data self.now) strip.clip strip.row cut 0
            (titles_in (block_data self.now) strip.place (block_data self.now).titles)) buf.old buf.new) }
        ensures kept { KeptOutside (covers strip.clip) buf.old buf.new }
        ensures allocation_free { AreAllocationFreeTitles (block_data self.now).titles → IsOk result }
    {
        let mut column = 0u32;
        for title in &self.titles {
            if column >= u32::from(strip.row.width) {
                return Ok(());
            }
            let start = CutStart {
                column: column as u16,
                cut,
            };
            column = self.paint_cut_at(buf, strip, start, title)?;
        }
        Ok(())
    }

    /// Returns the total width of the titles of a place, with one column between two titles.
    fn total(&self, place: TitlePlace) -> u128
        ensures { result ≡ total (titles_in (block_data self.now) place (block_data self.now).titles) }
    {
        let mut sum = 0u128;
        for title in &self.titles {
            sum += self.spaced_width(place, title);
        }
        sum.saturating_sub(1)
    }

    /// Returns the width of a title plus 1 if it belongs in a place, else 0.
    fn spaced_width(&self, place: TitlePlace, title: &Title<'_>) -> u128
        ensures is { result ≡ spaced (titles_in (block_data self.now) place (title_data title.now ∷ [])) }
        ensures few { result ≤ 65536 }
    {
        if self.is_in(place, title) {
            u128::from(title_width(&title.line)) + 1
        } else {
            0
        }
    }

    /// Paints the titles of a strip in its middle.
    fn paint_middle(&self, buf: &mut Buffer, strip: Strip) -> Mem<()>
        ensures ok { OnOk result
            (Painted (titles_in_middle (block_data self.now) strip.clip strip.row
            (titles_in (block_data self.now) strip.place (block_data self.now).titles)) buf.old buf.new) }
        ensures kept { KeptOutside (covers strip.clip) buf.old buf.new }
        ensures allocation_free { AreAllocationFreeTitles (block_data self.now).titles → IsOk result }
    {
        let total = self.total(strip.place);
        let room = u128::from(strip.row.width);
        if total <= room {
            let column = (room - total) / 2;
            return self.paint_from(buf, strip, column as u16);
        }
        self.paint_cut(buf, strip, (total - room) / 2)
    }

    /// Paints a title to the left of those that take the last `after` columns, if it belongs in the strip. Returns the
    /// number of columns that all of them take.
    fn paint_before(
        &self,
        buf: &mut Buffer,
        strip: Strip,
        after: u16,
        title: &Title<'_>,
    ) -> Mem<u32>
        requires { after < strip.row.width }
        ensures ok { IfOk result (λ next. (ts : List LineData) (first : Screen)
            → after ≡ spaced ts
            → Painted (titles_to_end (block_data self.now) strip.clip strip.row ts) first buf.old
            → Painted (titles_to_end (block_data self.now) strip.clip strip.row (titles_in (block_data self.now) strip.place (title_data title.now ∷ []) ++ ts))
            first buf.new) }
        ensures taken { IfOk result (λ next. next ≡ after + spaced (titles_in (block_data self.now) strip.place (title_data title.now ∷ []))) }
        ensures kept { KeptOutside (covers strip.clip) buf.old buf.new }
        ensures allocation_free { AreAllocationFree (title_data title.now).line.spans → IsOk result }
    {
        if !self.is_in(strip.place, title) {
            return Ok(u32::from(after));
        }
        let width = title_width(&title.line);
        let end = strip.row.width - after;
        let shown = width.min(end);
        let columns = TitleColumns {
            first: end - shown,
            width: shown,
            alignment: title.line.line_alignment().unwrap_or(Alignment::Left),
        };
        self.paint_title(buf, strip, columns, &title.line)?;
        Ok(u32::from(after) + u32::from(width) + 1)
    }

    /// Paints the titles of a strip up to its end, the last one first, while there is room.
    fn paint_to_end(&self, buf: &mut Buffer, strip: Strip) -> Mem<()>
        ensures ok { OnOk result
            (Painted (titles_to_end (block_data self.now) strip.clip strip.row
            (titles_in (block_data self.now) strip.place (block_data self.now).titles)) buf.old buf.new) }
        ensures kept { KeptOutside (covers strip.clip) buf.old buf.new }
        ensures allocation_free { AreAllocationFreeTitles (block_data self.now).titles → IsOk result }
    {
        let count = self.titles.len();
        let mut after = 0u32;
        for i in 0..count {
            if after >= u32::from(strip.row.width) {
                return Ok(());
            }
            let title = &self.titles[count - 1 - i];
            after = self.paint_before(buf, strip, after as u16, title)?;
        }
        Ok(())
    }

    /// Paints the titles of a side: those at the left, in the middle and at the right.
    #[tactic(auto, unfolding(crate::specs::Strokes::row_titles))]
    pub(crate) fn paint_titles(
        &self,
        buf: &mut Buffer,
        clip: Rect,
        position: TitlePosition,
    ) -> Mem<()>
        ensures ok { OnOk result (Painted (row_titles (block_data self.now) clip position) buf.old buf.new) }
        ensures kept { KeptOutside (covers clip) buf.old buf.new }
        ensures allocation_free { AreAllocationFreeTitles (block_data self.now).titles → IsOk result }
    {
        let left = self.strip(clip, place_of(position, Alignment::Left));
        let middle = Strip {
            place: place_of(position, Alignment::Center),
            ..left
        };
        let right = Strip {
            place: place_of(position, Alignment::Right),
            ..left
        };
        self.paint_from(buf, left, 0)?;
        self.paint_middle(buf, middle)?;
        self.paint_to_end(buf, right)
    }
}
