//! Values side by side, each in a column.

ghost use Rattle.std.specs.Prelude.{◌≡◌, IfOk, Some, map, true};
ghost use Rattle.tui_bars.specs.Sparkline.{empty_sparkline, sparkline_bar_data, sparkline_data};
ghost use Rattle.tui_cells.specs.Symbols.{bar_data};
ghost use Rattle.tui_frames.specs.Block.{block_data};

mod rendering;

use crate::render_direction::RenderDirection;
use crate::sparkline_bar::SparklineBar;
use std::alloc::Global;
use tui_cells::{Mem, Style, Styled, bar};
use tui_frames::{Block, clone_if_some};

/// Values side by side, each as a bar in its own column. Values for which there is no column are left out.
#[derive(Debug, PartialEq, Eq)]
pub struct Sparkline<'a> {
    block: Option<Block<'a>>,
    bars: Vec<SparklineBar>,
    style: Style,
    absent_value_style: Style,
    absent_value_symbol: &'a str,
    max: Option<u64>,
    bar_set: bar::Set<'a>,
    direction: RenderDirection,
}

// Written by hand, so that dependent crates need no proofs about dropping the fields.
impl<'a> Drop for Sparkline<'a> {
    fn drop(self) {
        let Sparkline {
            block,
            bars,
            style,
            absent_value_style,
            absent_value_symbol,
            max,
            bar_set,
            direction,
        } = self;
    }
}

impl<'a> Sparkline<'a> {
    /// Returns a sparkline without values, with nine levels, a space for an absent value, and nothing else set.
    pub fn new(alloc: Global) -> Sparkline<'a>
        ensures { sparkline_data result ≡ empty_sparkline }
    {
        Sparkline {
            block: None,
            bars: Vec::new(alloc),
            style: Style::new(),
            absent_value_style: Style::new(),
            absent_value_symbol: " ",
            max: None,
            bar_set: bar::NINE_LEVELS,
            direction: RenderDirection::LeftToRight,
        }
    }

    /// Sets the block around the bars. The bars are drawn in the block's inner area.
    pub fn block(mut self, block: Block<'a>) -> Sparkline<'a>
        ensures { sparkline_data result ≡ record (sparkline_data self.entry) { block = Some (block_data block.entry) } }
    {
        self.block = Some(block);
        self
    }

    /// Sets the style of the bars.
    pub fn style(mut self, style: Style) -> Sparkline<'a>
        ensures { sparkline_data result ≡ record (sparkline_data self.entry) { style = style } }
    {
        self.style = style;
        self
    }

    /// Sets the style for the columns of absent values. It patches the style of the bars.
    pub fn absent_value_style(mut self, style: Style) -> Sparkline<'a>
        ensures { sparkline_data result ≡ record (sparkline_data self.entry) { absent_style = style } }
    {
        self.absent_value_style = style;
        self
    }

    /// Sets the symbol that fills the column of an absent value.
    pub fn absent_value_symbol(mut self, symbol: &'a str) -> Sparkline<'a>
        ensures { sparkline_data result ≡ record (sparkline_data self.entry) { absent_symbol = symbol.now } }
    {
        self.absent_value_symbol = symbol;
        self
    }

    /// Replaces the bars.
    pub fn data(mut self, bars: Vec<SparklineBar>) -> Sparkline<'a>
        ensures { sparkline_data result ≡ record (sparkline_data self.entry) { bars = map sparkline_bar_data bars.items } }
    {
        self.bars = bars;
        self
    }

    /// Sets the value that fills a column, instead of the greatest of the values.
    pub fn max(mut self, max: u64) -> Sparkline<'a>
        ensures { sparkline_data result ≡ record (sparkline_data self.entry) { max = Some max } }
    {
        self.max = Some(max);
        self
    }

    /// Sets the symbols of partly filled cells.
    pub fn bar_set(mut self, set: bar::Set<'a>) -> Sparkline<'a>
        ensures { sparkline_data result ≡ record (sparkline_data self.entry) { symbols = bar_data set.entry } }
    {
        self.bar_set = set;
        self
    }

    /// Sets the side where the first bar is.
    pub fn direction(mut self, direction: RenderDirection) -> Sparkline<'a>
        ensures { sparkline_data result ≡ record (sparkline_data self.entry) { direction = direction } }
    {
        self.direction = direction;
        self
    }

    /// Returns an equal copy. Fails with `NoMemory` if the block or the bars can't be allocated.
    pub fn clone(&self) -> Mem<Sparkline<'a>>
        ensures is { IfOk result (λ line. sparkline_data line ≡ sparkline_data self.now) }
        ensures equal { IfOk result (λ line. ⟦<Sparkline<'a> as PartialEq>⟧.eq line self.now ≡ true) }
    {
        let alloc = *self.bars.allocator();
        Ok(Sparkline {
            block: clone_if_some(&self.block)?,
            bars: Vec::from_slice(alloc, &self.bars)?,
            style: self.style,
            absent_value_style: self.absent_value_style,
            absent_value_symbol: self.absent_value_symbol,
            max: self.max,
            bar_set: self.bar_set,
            direction: self.direction,
        })
    }
}

impl<'a> Styled for Sparkline<'a> {
    ghost style_of = { λ line. line.style };

    ghost with_style = { λ line style. record line { style = style } };

    fn style(&self) -> Style {
        self.style
    }

    fn set_style(mut self, style: Style) -> Sparkline<'a> {
        self.style = style;
        self
    }
}
