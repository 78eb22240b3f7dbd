//! Where the first line of a wrapped text line ends.

ghost use Rattle.std.specs.Prelude.{◌≡◌, if◌then◌else◌};
ghost use Rattle.tui_para.specs.Counting.{left_from};
ghost use Rattle.tui_line_places.specs.Places.{GoesOnInLine, shown_in};
ghost use Rattle.tui_line_places.specs.Rests.{FirstThen, cluster_rule};

use crate::graphemes::{Next, next_grapheme};
use crate::lines::Lines;
use tui_para::{Counter, LineEnd, Mark, Wrap};

/// Returns the text after its first wrapped line and after the whitespace that is dropped there. If the first text line
/// ends before that, returns the rest from which nothing more of that text line is shown.
pub(crate) fn line_rest(text: &str, lines: Lines) -> &str
    ensures goes_on { GoesOnInLine text.now result.now }
    ensures first { FirstThen (cluster_rule lines.width lines.trim) (shown_in lines.width text.now) (shown_in lines.width result.now) }
{
    let wrap = Wrap {
        trim: lines.trim,
        hyphens: false,
    };
    let mut counter = Counter::new();
    let mut rest = text;
    let mut word = text;
    'graphemes: while let Next::Grapheme(grapheme) = next_grapheme(rest, lines.width) {
        word = word_from(&counter, word, rest);
        let mark = Mark {
            width: grapheme.width,
            blank: grapheme.blank,
            split: false,
        };
        if let Some(end) = counter.read_in_line(mark, lines.width, wrap) {
            return left_from(end, word, rest, grapheme.after);
        }
        rest = grapheme.after;
    }
    rest
}

/// Returns where the word under way began, or `here` if no word is under way.
#[inline(always)]
fn word_from<'a>(counter: &Counter, word: &'a str, here: &'a str) -> &'a str
    ensures { result.now ≡ (if counter.now.in_word then word.now else here.now) }
{
    if counter.is_in_word() { word } else { here }
}

/// Returns the text that is left after a line that ends at the next grapheme.
fn left_from<'a>(end: LineEnd, word: &'a str, here: &'a str, after: &'a str) -> &'a str
    ensures { result.now ≡ left_from end word.now here.now after.now }
{
    match end {
        LineEnd::BeforeWord => word,
        LineEnd::WithinWord => here,
        LineEnd::AfterBlank => after,
    }
}
