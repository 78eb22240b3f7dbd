//! Paragraphs.

ghost use Rattle.std.specs.Prelude.{◌≡◌, ◌<◌, List, length, None, Some, Ok, All, IsOk, IfOk, true, false, IsSome, IfSome, ℕ, sum_by};
ghost use Rattle.tui_frames.specs.Block.{block_data};
ghost use Rattle.tui_frames.specs.InBlock.{beside};
ghost use Rattle.tui_para.specs.Paragraph.{block_columns, block_rows, paragraph_data, paragraph_of};
ghost use Rattle.tui_para.specs.Division.{IsFewest};
ghost use Rattle.tui_para.specs.Lines.{GlyphLine};
ghost use Rattle.tui_para.specs.WrappedText.{IsTextOf, WrappedText};
ghost use Rattle.tui_text.specs.Grapheme.{Glyph, glyph_width};
ghost use Rattle.tui_text.specs.Line.{LineData};
ghost use Rattle.tui_text.specs.Text.{text_data};
ghost use Rattle.tui_text.specs.declared.alignment.Alignment.TheVariants.{Left, Center, Right};
ghost use Rattle.tui_clusters.specs.Width.{saturated};
ghost use Rattle.tui_text.specs.Width.{text_width};

mod rendering;

use crate::counting::wrapped_count;
use crate::wrap::Wrap;
use std::alloc::Global;
use tui_cells::{Mem, Position, Style, Styled};
use tui_frames::{Block, beside, clone_if_some, columns_if_some, rows_if_some};
use tui_text::{Alignment, Text};

/// A text that is shown in rows. Without a wrap, each line of the text has one row and is cut off at its right end.
/// With a wrap, it is broken into rows of the available width.
#[derive(Debug, PartialEq, Eq, Hash)]
pub struct Paragraph<'a> {
    block: Option<Block<'a>>,
    text: Text<'a>,
    style: Style,
    wrap: Option<Wrap>,
    scroll: Position,
    alignment: Alignment,
}

// Written out, so that dependent crates have nothing to prove about its fields when they drop it.
impl<'a> Drop for Paragraph<'a> {
    fn drop(self) {
        let Paragraph {
            block,
            text,
            style,
            wrap,
            scroll,
            alignment,
        } = self;
    }
}

impl<'a> Paragraph<'a> {
    /// Creates a paragraph of a text, not wrapped and not scrolled. It is aligned as the text is, or to the left if the
    /// text has no alignment.
    pub fn new(text: Text<'a>) -> Paragraph<'a>
        ensures { paragraph_data result ≡ paragraph_of (text_data text.entry) }
    {
        let alignment = text.text_alignment().unwrap_or(Alignment::Left);
        Paragraph {
            block: None,
            text,
            style: Style::new(),
            wrap: None,
            scroll: Position::new(0, 0),
            alignment,
        }
    }

    /// Surrounds the paragraph with a block. The text is drawn inside it.
    pub fn block(mut self, block: Block<'a>) -> Paragraph<'a>
        ensures { paragraph_data result ≡ record (paragraph_data self.entry) { block = Some (block_data block.entry) } }
    {
        self.block = Some(block);
        self
    }

    /// Sets the base style, under the text's style.
    pub fn style(mut self, style: Style) -> Paragraph<'a>
        ensures { paragraph_data result ≡ record (paragraph_data self.entry) { style = style } }
    {
        self.style = style;
        self
    }

    /// Wraps the lines. Without a wrap, each text line has one row.
    pub fn wrap(mut self, wrap: Wrap) -> Paragraph<'a>
        ensures { paragraph_data result ≡ record (paragraph_data self.entry) { wrap = Some wrap } }
    {
        self.wrap = Some(wrap);
        self
    }

    /// Sets the scroll offset (y, x). The first row shows line y. The first x columns are left out of each line that is
    /// not wrapped and is aligned to the left.
    pub fn scroll(mut self, scroll: (u16, u16)) -> Paragraph<'a>
        ensures { paragraph_data result ≡ record (paragraph_data self.entry) { scroll_y = scroll.0; scroll_x = scroll.1 } }
    {
        let (y, x) = scroll;
        self.scroll = Position::new(x, y);
        self
    }

    /// Sets the alignment of the lines that have none of their own.
    pub fn alignment(mut self, alignment: Alignment) -> Paragraph<'a>
        ensures { paragraph_data result ≡ record (paragraph_data self.entry) { alignment = alignment } }
    {
        self.alignment = alignment;
        self
    }

    /// Aligns the lines without an alignment of their own to the left.
    pub fn left_aligned(self) -> Paragraph<'a>
        ensures { paragraph_data result ≡ record (paragraph_data self.entry) { alignment = Left } }
    {
        self.alignment(Alignment::Left)
    }

    /// Aligns the lines without an alignment of their own to the middle.
    pub fn centered(self) -> Paragraph<'a>
        ensures { paragraph_data result ≡ record (paragraph_data self.entry) { alignment = Center } }
    {
        self.alignment(Alignment::Center)
    }

    /// Aligns the lines without an alignment of their own to the right.
    pub fn right_aligned(self) -> Paragraph<'a>
        ensures { paragraph_data result ≡ record (paragraph_data self.entry) { alignment = Right } }
    {
        self.alignment(Alignment::Right)
    }

    /// Returns an equal paragraph. Fails with `NoMemory` if there is no memory for the text or the titles of the block.
    pub fn clone(&self) -> Mem<Paragraph<'a>>
        ensures is { IfOk result (λ paragraph. paragraph_data paragraph ≡ paragraph_data self.now) }
        ensures equal { IfOk result (λ paragraph. ⟦<Paragraph<'a> as PartialEq>⟧.eq paragraph self.now ≡ true) }
    {
        Ok(Paragraph {
            block: clone_if_some(&self.block)?,
            text: self.text.clone()?,
            style: self.style,
            wrap: self.wrap,
            scroll: self.scroll,
            alignment: self.alignment,
        })
    }

    /// Returns the number of lines at this width, plus the rows of a block above and below them. Saturates at the
    /// greatest 64-bit number. The width is that of the lines, without the block's columns. At width 0 the result is 0.
    /// Without a wrap the lines are those of the text. Does not allocate.
    pub fn line_count(&self, _alloc: Global, width: u16) -> Mem<usize>
        ensures ok { IsOk result }
        ensures nothing { width ≡ 0 → result ≡ Ok 0 }
        ensures unwrapped { 0 < width → (paragraph_data self.now).wrap ≡ None
            → result ≡ Ok (beside (length (paragraph_data self.now).text.lines) (block_rows (paragraph_data self.now))) }
        ensures wrapped { 0 < width → IfSome (paragraph_data self.now).wrap (λ wrap. (lines : List GlyphLine)
            → WrappedText width wrap (paragraph_data self.now).alignment (paragraph_data self.now).text lines
            → result ≡ Ok (beside (saturated (length lines)) (block_rows (paragraph_data self.now)))) }

        // Without breaks after hyphens, no division of the words has fewer lines. This holds if each line of the text
        // is words with single whitespace graphemes between them.
        ensures fewest { 0 < width → IsSome (paragraph_data self.now).wrap → IfSome (paragraph_data self.now).wrap (λ wrap. wrap.hyphens ≡ false)
            → (words : LineData → List (List Glyph))
            → IsTextOf words width (paragraph_data self.now).text → (counts : LineData → ℕ)
            × All (λ line. IsFewest glyph_width (words line) width (counts line)) (paragraph_data self.now).text.lines
            × (result ≡ Ok (beside (saturated (sum_by counts (paragraph_data self.now).text.lines)) (block_rows (paragraph_data self.now)))) }
    {
        if width == 0 {
            return Ok(0);
        }
        Ok(beside(self.lines_at(width), rows_if_some(&self.block)))
    }

    /// Returns the number of lines at a width above 0, without the block's rows.
    fn lines_at(&self, width: u16) -> usize
        requires { 0 < width }
        ensures unwrapped { (paragraph_data self.now).wrap ≡ None → result ≡ length (paragraph_data self.now).text.lines }
        ensures wrapped { IfSome (paragraph_data self.now).wrap (λ wrap. (lines : List GlyphLine)
            → WrappedText width wrap (paragraph_data self.now).alignment (paragraph_data self.now).text lines → result ≡ saturated (length lines)) }
        ensures fewest { IsSome (paragraph_data self.now).wrap → IfSome (paragraph_data self.now).wrap (λ wrap. wrap.hyphens ≡ false)
            → (words : LineData → List (List Glyph))
            → IsTextOf words width (paragraph_data self.now).text → (counts : LineData → ℕ)
            × All (λ line. IsFewest glyph_width (words line) width (counts line)) (paragraph_data self.now).text.lines
            × (result ≡ saturated (sum_by counts (paragraph_data self.now).text.lines)) }
    {
        match self.wrap {
            None => self.text.height(),
            Some(wrap) => wrapped_count(&self.text, width, wrap),
        }
    }

    /// Returns the width of the widest line of the text, plus that of a block beside it, in columns. Saturates at the
    /// greatest 64-bit number.
    pub fn line_width(&self) -> usize
        ensures { result ≡ beside (saturated (text_width (paragraph_data self.now).text)) (block_columns (paragraph_data self.now)) }
    {
        beside(self.text.width(), columns_if_some(&self.block))
    }
}

impl<'a> Styled for Paragraph<'a> {
    ghost style_of = { λ paragraph. paragraph.style };

    ghost with_style = { λ paragraph style. record paragraph { style = style } };

    fn style(&self) -> Style {
        self.style
    }

    fn set_style(mut self, style: Style) -> Paragraph<'a> {
        self.style = style;
        self
    }
}
