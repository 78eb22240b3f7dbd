//! Graphemes and columns by values from the standards, and texts by the calls that no program makes.

use tui_cells::{Mem, Style};
use tui_text::{Line, Span, Text, cell_width};

/// Texts and their graphemes, separated by bars: samples from UAX #29, table 1a and its test file. Clusters with a
/// control character are left out.
const CLUSTERS: [(&str, &str); 15] = [
    ("ab", "a|b"),
    ("g\u{308}", "g\u{308}"),
    ("\u{1100}\u{1161}\u{11a8}", "\u{1100}\u{1161}\u{11a8}"),
    ("\u{ac01}\u{ac01}", "\u{ac01}|\u{ac01}"),
    ("\u{e01}\u{e33}", "\u{e01}\u{e33}"),
    ("\u{ba8}\u{bbf}", "\u{ba8}\u{bbf}"),
    (
        "\u{915}\u{94d}\u{937}\u{93f}",
        "\u{915}\u{94d}\u{937}\u{93f}",
    ),
    (
        "\u{1f1e6}\u{1f1e7}\u{1f1e8}b",
        "\u{1f1e6}\u{1f1e7}|\u{1f1e8}|b",
    ),
    (
        "\u{1f476}\u{1f3ff}\u{1f476}",
        "\u{1f476}\u{1f3ff}|\u{1f476}",
    ),
    (
        "\u{1f6d1}\u{200d}\u{1f6d1}a",
        "\u{1f6d1}\u{200d}\u{1f6d1}|a",
    ),
    ("a\u{200d}\u{1f6d1}", "a\u{200d}|\u{1f6d1}"),
    ("a\u{200b}b", "a|\u{200b}|b"),
    ("a\r\nb\u{308}", "a|b\u{308}"),
    ("\u{7f}a\tb\u{9f}", "a|b"),
    ("a\u{a0}b", "a|\u{a0}|b"),
];

fn are_graphemes(line: &Line, expected: &str) -> bool {
    let mut symbols = expected.split('|');
    for grapheme in line.styled_graphemes(Style::new()) {
        if symbols.next() != Some(grapheme.symbol) {
            return false;
        }
    }
    symbols.next().is_none()
}

#[test]
fn graphemes_are_extended_clusters(rt: HostRuntime) -> Mem<()> {
    for &(text, clusters) in &CLUSTERS {
        let line = Line::raw(rt.alloc(), text)?;
        assert!(&rt; are_graphemes(&line, clusters));
    }
    Ok(())
}

/// Texts, their columns, and their columns if ambiguous characters are wide: categories of UAX #11.
const WIDTHS: [(&str, u16, usize); 10] = [
    ("", 0, 0),
    ("a", 1, 1),
    ("~", 1, 1),
    ("\u{4e00}", 2, 2),
    ("\u{ff21}", 2, 2),
    ("\u{ff71}", 1, 1),
    ("\u{a1}", 1, 2),
    ("e\u{301}", 1, 1),
    ("\u{200b}", 0, 0),
    ("\u{1f1e9}\u{1f1ea}", 2, 2),
];

fn are_columns(text: &str, width: u16, width_cjk: usize) -> bool {
    let span = Span::raw(text);
    cell_width(text) == width && span.width() == usize::from(width) && span.width_cjk() == width_cjk
}

#[test]
fn widths_are_columns(rt: HostRuntime) {
    for &(text, width, width_cjk) in &WIDTHS {
        assert!(&rt; are_columns(text, width, width_cjk));
    }
}

#[test]
fn texts_are_copied(rt: HostRuntime) -> Mem<()> {
    let mut line = Line::new(rt.alloc());
    line.push_span(Span::raw("a"))?;
    let mut text = Text::new(rt.alloc());
    text.push_line(line)?;
    drop(text.clone()?);
    Ok(())
}
