//! What is left of a text after its first line.

ghost use Rattle.std.specs.Prelude.{◌≡◌, ◌↔◌, ◌<◌, [], length, IfSome, MatchOption, None, Some};
ghost use Rattle.std.specs.Str.{IsUtf8};
ghost use Rattle.tui_line_places.specs.AfterLine.{IsAfterLine, IsOneLine};

use crate::graphemes::{Next, next_grapheme};
use crate::line::line_rest;
use crate::lines::Lines;

/// Returns the text from the beginning of its second wrapped line, or `None` if it has only one line. The cost is that
/// of wrapping this line and of what is read ahead to find its end. Does not allocate.
pub fn after_line(text: &str, lines: Lines) -> Option<&str>
    ensures one { result ≡ None ↔ IsOneLine lines.width lines.trim text.now }
    ensures rest { IfSome result (λ rest. IsAfterLine lines.width lines.trim text.now rest.now) }
    ensures shorter { IfSome result (λ rest. length rest.now < length text.now) }
{
    second_line(text, lines)
}

pub(crate) fn second_line(text: &str, lines: Lines) -> Option<&str>
    ensures { MatchOption result (IsOneLine lines.width lines.trim text.now) (λ rest. IsUtf8 rest.now × IsAfterLine lines.width lines.trim text.now rest.now) }
{
    let rest = line_rest(text, lines);
    match next_grapheme(rest, lines.width) {
        Next::Grapheme(_) => Some(rest),
        Next::EndOfLine(after) => if_some(after),
    }
}

/// Returns the text, or `None` if it is empty.
fn if_some(text: &str) -> Option<&str>
    ensures { MatchOption result (text.now ≡ []) (λ some. (some.now ≡ text.now) × (0 < length text.now)) }
{
    if text.is_empty() { None } else { Some(text) }
}
