//! The graphemes of a text's first line.

ghost use Rattle.std.specs.Prelude.{◌≡◌, ◌&&◌, nat_le, not, IfSome};
ghost use Rattle.tui_clusters.specs.Shown.{has_control};
ghost use Rattle.tui_line_places.specs.Next.{IsNextOf, IsNextShown};
ghost use Rattle.tui_line_places.specs.Places.{is_newline};

use tui_clusters::{cell_width, first_cluster, has_control, is_blank, is_printable_first};

/// A grapheme: its width in columns, whether it is whitespace, and the text after it.
#[derive(Clone, Copy, Debug)]
pub(crate) struct Grapheme<'a> {
    pub width: u16,
    pub blank: bool,
    pub after: &'a str,
}

/// The next grapheme of a text line or, if it has no more, the text after the line.
#[derive(Clone, Copy, Debug)]
pub(crate) enum Next<'a> {
    Grapheme(Grapheme<'a>),
    EndOfLine(&'a str),
}

/// Returns the next grapheme of the text's first line. Skips graphemes that are wider than a line or that hold a
/// control character.
#[inline(always)]
pub(crate) fn next_grapheme(text: &str, max_width: u16) -> Next<'_>
    ensures { IsNextOf max_width text.now result }
{
    if let Some(grapheme) = printable_grapheme(text, max_width) {
        return Next::Grapheme(grapheme);
    }
    other_grapheme(text, max_width)
}

// A function reserves the space for its calls' results when it is entered. As a function of its own, this one is
// entered only if the call is made.
#[inline(always)]
fn other_grapheme(text: &str, max_width: u16) -> Next<'_>
    ensures { IsNextOf max_width text.now result }
{
    looked_up_grapheme(text, max_width)
}

/// Returns the next grapheme if the text begins with a printable ASCII character and then ends or goes on with another
/// one. Such a character needs no table lookup.
#[inline(always)]
fn printable_grapheme(text: &str, max_width: u16) -> Option<Grapheme<'_>>
    ensures { IfSome result (λ next. IsNextShown max_width text.now next.width next.blank next.after.now) }
{
    if max_width == 0 || text.is_empty() || !is_printable_first(text) {
        return None;
    }
    let blank = text.as_bytes()[0] == b' ';
    let (_, after) = text.split_at(1);
    Some(Grapheme {
        width: 1,
        blank,
        after,
    })
}

// Never inlined, so that printable bytes don't pay for a call.
#[inline(never)]
fn looked_up_grapheme(text: &str, max_width: u16) -> Next<'_>
    ensures { IsNextOf max_width text.now result }
{
    let mut rest = text;
    'clusters: while let Some((cluster, after)) = first_cluster(rest) {
        if is_newline(cluster) {
            return Next::EndOfLine(after);
        }
        let width = cell_width(cluster);
        if is_shown(cluster, width, max_width) {
            return Next::Grapheme(Grapheme {
                width,
                blank: is_blank(cluster),
                after,
            });
        }
        rest = after;
    }
    Next::EndOfLine(rest)
}

fn is_newline(cluster: &str) -> bool
    ensures { result ≡ is_newline cluster.now }
{
    cluster == "\n" || cluster == "\r\n"
}

fn is_shown(cluster: &str, width: u16, max_width: u16) -> bool
    ensures { result ≡ (nat_le width max_width && not (has_control cluster.now)) }
{
    width <= max_width && !has_control(cluster)
}
