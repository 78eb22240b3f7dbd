//! Where the lines of a text begin.

ghost use Rattle.std.specs.Prelude.{◌≡◌, ◌↔◌, IfOk, IfSome, MatchOption, None, Some};
ghost use Rattle.std.specs.Str.{IsUtf8};
ghost use Rattle.tui_line_places.specs.AfterLine.{AreLineOffsets, HasAtMostLines, IsFromLine};

use crate::lines::Lines;
use crate::rest::second_line;
use std::alloc::Global;
use tui_cells::Mem;

/// Returns the text from the beginning of its wrapped line `line`, counted from 0. Returns `None` if it has no such
/// line. The cost is that of wrapping the lines above. Does not allocate.
pub fn from_line(text: &str, lines: Lines, line: usize) -> Option<&str>
    ensures past { result ≡ None ↔ HasAtMostLines lines.width lines.trim text.now line }
    ensures rest { IfSome result (λ rest. IsFromLine lines.width lines.trim line text.now rest.now) }
{
    rest_from(text, lines, line)
}

pub(crate) fn rest_from(text: &str, lines: Lines, line: usize) -> Option<&str>
    ensures { MatchOption result (HasAtMostLines lines.width lines.trim text.now line)
        (λ rest. IsUtf8 rest.now × IsFromLine lines.width lines.trim line text.now rest.now) }
{
    let mut rest = text;
    for _line in 0..line {
        rest = second_line(rest, lines)?;
    }
    Some(rest)
}

/// Returns the byte offset at which each wrapped line of the text begins. The text from such an offset on has the lines
/// from that one on.
///
/// Reads the text once. Allocates 8 bytes per line and at most as much again in reserve. Fails with `NoMemory` if there
/// is no memory for the offsets.
pub fn line_offsets(alloc: Global, text: &str, lines: Lines) -> Mem<Vec<usize>>
    ensures { IfOk result (λ places. AreLineOffsets lines.width lines.trim text.now places.items) }
{
    let mut places = Vec::new(alloc);
    places.push(0)?;
    let mut rest = text;
    'lines: while let Some(next) = second_line(rest, lines) {
        rest = next;
        places.push(text.len() - rest.len())?;
    }
    Ok(places)
}
