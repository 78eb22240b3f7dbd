//! Text inputs.

ghost use Rattle.std.specs.Prelude.{◌≡◌, IfOk, Some};
ghost use Rattle.tui_frames.specs.Block.{block_data};
ghost use Rattle.tui_input.specs.Input.{bare_input, cursor_in, input_data, place_in};
ghost use Rattle.tui_text.specs.Span.{span_data};

mod rendering;

use crate::scroll::{columns, graphemes_from};
use crate::state::InputState;
use tui_cells::{FARTHEST_EDGE, Mem, Position, Rect, Style, Styled};
use tui_frames::{Block, BlockExt, clone_if_some};
use tui_text::Span;

/// A single-line text input, drawn in the first row of its area. Its text, its cursor and the first grapheme that is
/// shown are in an `InputState`. The text scrolls only as far as needed to show the cursor, and scrolls back if columns
/// would otherwise stay empty.
#[derive(Debug, PartialEq, Eq, Hash)]
pub struct Input<'a> {
    block: Option<Block<'a>>,
    style: Style,
    placeholder: Span<'a>,
    mask: Option<&'a str>,
}

// Written out, so that dependent crates need no proofs about the fields to drop the value.
impl<'a> Drop for Input<'a> {
    fn drop(self) {
        let Input {
            block,
            style,
            placeholder,
            mask,
        } = self;
    }
}

impl<'a> Input<'a> {
    /// Creates an input without a block, a style, a placeholder or a mask.
    pub fn new() -> Input<'a>
        ensures { input_data result ≡ bare_input }
    {
        Input {
            block: None,
            style: Style::new(),
            placeholder: Span::raw(""),
            mask: None,
        }
    }

    /// Sets the block around the text. The text is then in the first row inside the block.
    pub fn block(mut self, block: Block<'a>) -> Input<'a>
        ensures { input_data result ≡ record (input_data self.entry) { block = Some (block_data block.entry) } }
    {
        self.block = Some(block);
        self
    }

    /// Sets the style of the whole area, under the block and the text.
    pub fn style(mut self, style: Style) -> Input<'a>
        ensures { input_data result ≡ record (input_data self.entry) { style = style } }
    {
        self.style = style;
        self
    }

    /// Sets what is shown while the text is empty.
    pub fn placeholder(mut self, placeholder: Span<'a>) -> Input<'a>
        ensures { input_data result ≡ record (input_data self.entry) { placeholder = span_data placeholder.entry } }
    {
        self.placeholder = placeholder;
        self
    }

    /// Sets the symbol that is shown in place of each grapheme of the text, in as many columns as the symbol is wide.
    /// An empty symbol shows nothing, and the cursor stays in the first column.
    pub fn mask(mut self, symbol: &'a str) -> Input<'a>
        ensures { input_data result ≡ record (input_data self.entry) { mask = Some symbol.now } }
    {
        self.mask = Some(symbol);
        self
    }

    /// Returns the position of the cursor: right after what is shown left of it. `area` is the area of the input, and
    /// lies in the buffer. After a drawing the cursor is visible, unless there is no cell inside the block.
    pub fn cursor(&self, area: Rect, state: &InputState) -> Option<Position>
        ensures { result ≡ cursor_in (input_data self.now) area state.now }
    {
        let (before, _) = state.sides();
        let column = columns(self.mask, graphemes_from(before, state.first()));
        position_in(self.block.inner_if_some(area), column)
    }

    /// Returns an equal input. Fails with `NoMemory` if there is no memory for a copy of the block.
    pub fn clone(&self) -> Mem<Input<'a>>
        ensures { IfOk result (λ input. input_data input ≡ input_data self.now) }
    {
        Ok(Input {
            block: clone_if_some(&self.block)?,
            style: self.style,
            placeholder: self.placeholder,
            mask: self.mask,
        })
    }
}

/// Returns a position in the first row of an area, if it is in the area.
fn position_in(area: Rect, column: usize) -> Option<Position>
    ensures { result ≡ place_in area column }
{
    let x = (area.x as usize)
        .saturating_add(column)
        .min(FARTHEST_EDGE as usize) as u16;
    let at = Position { x, y: area.y };
    if area.contains(at) { Some(at) } else { None }
}

impl<'a> Styled for Input<'a> {
    ghost style_of = { λ input. input.style };

    ghost with_style = { λ input style. record input { style = style } };

    fn style(&self) -> Style {
        self.style
    }

    fn set_style(mut self, style: Style) -> Input<'a> {
        self.style = style;
        self
    }
}
