//! Paints the lines that a composer yields, one in each row.

ghost use Rattle.std.specs.Prelude.{List, OnOk, drop};
ghost use Rattle.tui_cells.specs.Rect.{covers};
ghost use Rattle.tui_cells.specs.Layers.{Painted, KeptOutside};
ghost use Rattle.tui_para.specs.Lines.{GlyphLine};
ghost use Rattle.tui_para.specs.Strokes.{glyph_lines_layers};

use crate::composer::LineComposer;
use crate::painting::line::paint_line;
use tui_cells::{Buffer, Mem, Rect};

/// Skips `count` lines.
fn skip_lines<'a, C: LineComposer<'a>>(composer: &mut C, count: u16) -> Mem<()>
    requires { C.can_yield composer.old }
    ensures ready { OnOk result (C.can_yield composer.new) }
    ensures skipped { OnOk result ((lines : List GlyphLine) → C.must_yield composer.old lines → C.must_yield composer.new (drop count lines)) }
{
    'lines: for _line in 0..count {
        match composer.next_line()? {
            None => return Ok(()),
            Some(_) => {}
        }
    }
    Ok(())
}

/// Paints the lines after the first `skipped` ones, from the top of an area on. Lines below its last row are not
/// composed.
pub(crate) fn paint_lines<'a, C: LineComposer<'a>>(
    buf: &mut Buffer,
    rect: Rect,
    composer: &mut C,
    skipped: u16,
) -> Mem<()>
    requires { C.can_yield composer.old }
    ensures ok { OnOk result ((lines : List GlyphLine) → C.must_yield composer.old lines
        → Painted (glyph_lines_layers rect rect.y (drop skipped lines)) buf.old buf.new) }
    ensures kept { KeptOutside (covers rect) buf.old buf.new }
{
    skip_lines(composer, skipped)?;
    'rows: for y in rect.top()..rect.bottom() {
        match composer.next_line()? {
            None => return Ok(()),
            Some(line) => paint_line(buf, rect, y, &line)?,
        }
    }
    Ok(())
}
