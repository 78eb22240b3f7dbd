//! Composers, which yield lines.

ghost use Rattle.std.specs.Borrow.{sem};
ghost use Rattle.std.specs.Io.BufRead.{Rests};
ghost use Rattle.std.specs.Prelude.{◌≡◌, Bool, List, IfOk, IfSome, map, sum_by};
ghost use Rattle.tui_text.specs.Grapheme.{glyph_of, glyph_width};
ghost use Rattle.tui_para.specs.Yielded.{NextLine};
ghost use Rattle.tui_para.specs.Lines.{GlyphLine};

use tui_cells::Mem;
use tui_text::{Alignment, StyledGrapheme};

/// A line that a composer yields: its graphemes, their width together in columns, and the alignment of the line.
#[derive(Clone, Copy, Debug)]
pub struct WrappedLine<'l, 'a> {
    pub graphemes: &'l [StyledGrapheme<'a>],
    pub width: u16,
    pub alignment: Alignment,
}

/// Yields lines one after another. Each is borrowed until the next call.
pub trait LineComposer<'a> {
    /// Its iterators may be called, and they end.
    ghost can_yield: { Self → Type 0 };

    /// The lists of lines that it may still yield.
    ghost to_come: { Self → List GlyphLine → Type 0 };

    /// The lists of lines that it is certain to yield, if its iterators give known text lines.
    ghost must_yield: { Self → List GlyphLine → Type 0 };

    /// Whether it has failed with `NoMemory`.
    ghost has_failed: { Self → Bool };

    /// Returns the next line, or `None` exactly if the width is 0 or no line is left. After it fails with `NoMemory`,
    /// every later call fails with `NoMemory`.
    fn next_line<'l>(&'l mut self) -> Mem<Option<WrappedLine<'l, 'a>>>
        requires { can_yield self.old }
        ensures width { IfOk result (λ found. IfSome found (λ line. line.width ≡ sum_by glyph_width (map glyph_of line.graphemes.now))) }
        ensures* after { sem 𝓛 (Rests Self.row self.entry (λ new. NextLine can_yield to_come must_yield has_failed self.old result new)) };
}
