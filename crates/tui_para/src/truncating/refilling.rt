//! Reads a text line that is truncated.

ghost use Rattle.std.specs.Prelude.{◌≡◌, List, map, IfOk, OnOk, sum_by};
ghost use Rattle.std.specs.Iterator.{Drains};
ghost use Rattle.tui_text.specs.Grapheme.{glyph_of, glyph_width};
ghost use Rattle.tui_text.specs.declared.grapheme.StyledGrapheme.{StyledGrapheme};
ghost use Rattle.tui_para.specs.Truncation.{shown_of};
ghost use Rattle.tui_para.specs.Given.{Ready};

use crate::ends::read_line;
use crate::truncating::truncation::Truncation;
use tui_cells::Mem;
use tui_text::StyledGrapheme;

/// Reads a text line to its end, and replaces `shown` with what is shown of it. Returns the width of that, in columns.
/// Nothing is allocated for what is not shown.
pub(crate) fn refill<'a, I: Iterator<Item = StyledGrapheme<'a>>>(
    shown: &mut Vec<StyledGrapheme<'a>>,
    line: I,
    start: Truncation,
) -> Mem<u16>
    requires { Ready I.Iterator line }
    ensures columns { IfOk result (λ columns. columns ≡ sum_by glyph_width (map glyph_of shown.new.items)) }
    ensures line { OnOk result ((all : List StyledGrapheme) × Drains I.next_gives line all
        × (map glyph_of shown.new.items ≡ shown_of start (map glyph_of all))) }
{
    shown.clear();
    let mut truncation = start;
    let mut rest = line;
    'graphemes: while !truncation.full {
        let Some(grapheme) = rest.next() else {
            return Ok(start.room - truncation.room);
        };
        if truncation.shows(&grapheme) {
            shown.push(grapheme)?;
        }
    }
    // A loop of its own, which copies no style.
    read_line(rest);
    Ok(start.room - truncation.room)
}
