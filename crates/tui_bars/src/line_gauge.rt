//! Lines that are filled to a share, after a label.

ghost use Rattle.std.specs.Prelude.{◌≡◌, ◌<◌, ◌≤◌, Err, IfOk, IsOk, Some, true};
ghost use Rattle.tui_bars.specs.LineGauge.{symbol_style, empty_line_gauge, line_gauge_data};
ghost use Rattle.tui_frames.specs.Block.{block_data};
ghost use Rattle.tui_text.specs.Line.{line_data};

mod rendering;

use crate::error::GaugeError;
use crate::label::clone_label;
use crate::percent::share_of;
use crate::share::Share;
use tui_cells::{Color, Mem, Style, Styled, line};
use tui_frames::{Block, clone_if_some};
use tui_layout::Fraction;
use tui_text::Line;

/// A label and, one column after it, a line to the end of the first row, whose first columns are filled to a share. If
/// no label is set, it is the percentage, padded to three digits.
#[derive(Debug, PartialEq, Eq)]
pub struct LineGauge<'a> {
    block: Option<Block<'a>>,
    label: Option<Line<'a>>,
    share: Share,
    style: Style,
    filled_symbol: &'a str,
    unfilled_symbol: &'a str,
    filled_style: Style,
    unfilled_style: Style,
}

// Written by hand, so that dependent crates need no proofs about dropping the fields.
impl<'a> Drop for LineGauge<'a> {
    fn drop(self) {
        let LineGauge {
            block,
            label,
            share,
            style,
            filled_symbol,
            unfilled_symbol,
            filled_style,
            unfilled_style,
        } = self;
    }
}

/// Returns the style with this foreground, `Reset` if it is not set, on the background `Reset`.
fn symbol_style(style: Style, color: Option<Color>) -> Style
    ensures { result ≡ symbol_style style color }
{
    style.fg(color.unwrap_or(Color::Reset)).bg(Color::Reset)
}

impl<'a> Default for LineGauge<'a> {
    /// Returns a line gauge of 0/1 with the symbol `─` for both parts and nothing else set.
    fn default() -> LineGauge<'a>
        ensures { line_gauge_data result ≡ empty_line_gauge }
    {
        LineGauge {
            block: None,
            share: Share { num: 0, den: 1 },
            label: None,
            style: Style::new(),
            filled_symbol: line::HORIZONTAL,
            unfilled_symbol: line::HORIZONTAL,
            filled_style: Style::new(),
            unfilled_style: Style::new(),
        }
    }
}

impl<'a> LineGauge<'a> {
    /// Sets the block around the line gauge. The line gauge is drawn in the block's inner area.
    pub fn block(mut self, block: Block<'a>) -> LineGauge<'a>
        ensures { line_gauge_data result ≡ record (line_gauge_data self.entry) { block = Some (block_data block.entry) } }
    {
        self.block = Some(block);
        self
    }

    /// Sets the share. Fails with `RatioOutOfRange` if and only if the denominator is 0 or the numerator is above it.
    /// The line gauge is then dropped.
    pub fn ratio(mut self, ratio: Fraction) -> Result<LineGauge<'a>, GaugeError>
        ensures ok { 0 < ratio.den → ratio.num ≤ ratio.den → IsOk result }
        ensures is { IfOk result (λ gauge. line_gauge_data gauge ≡ record (line_gauge_data self.entry) { num = ratio.num; den = ratio.den }) }
        ensures zero { ratio.den ≡ 0 → result ≡ Err GaugeError.RatioOutOfRange }
        ensures above { ratio.den < ratio.num → result ≡ Err GaugeError.RatioOutOfRange }
    {
        let share = share_of(ratio)?;
        self.share = share;
        Ok(self)
    }

    /// Sets both symbols to the horizontal symbol of a set.
    pub fn line_set(mut self, set: line::Set<'a>) -> LineGauge<'a>
        ensures { line_gauge_data result ≡ record (line_gauge_data self.entry) { filled = set.entry.horizontal.now; unfilled = set.entry.horizontal.now } }
    {
        self.filled_symbol = set.horizontal;
        self.unfilled_symbol = set.horizontal;
        self
    }

    /// Sets the symbol of the filled columns.
    pub fn filled_symbol(mut self, symbol: &'a str) -> LineGauge<'a>
        ensures { line_gauge_data result ≡ record (line_gauge_data self.entry) { filled = symbol.now } }
    {
        self.filled_symbol = symbol;
        self
    }

    /// Sets the symbol of the other columns.
    pub fn unfilled_symbol(mut self, symbol: &'a str) -> LineGauge<'a>
        ensures { line_gauge_data result ≡ record (line_gauge_data self.entry) { unfilled = symbol.now } }
    {
        self.unfilled_symbol = symbol;
        self
    }

    /// Sets the label, instead of the percentage.
    pub fn label(mut self, label: Line<'a>) -> LineGauge<'a>
        ensures { line_gauge_data result ≡ record (line_gauge_data self.entry) { label = Some (line_data label.entry) } }
    {
        self.label = Some(label);
        self
    }

    /// Sets the style under everything, including the block's area.
    pub fn style(mut self, style: Style) -> LineGauge<'a>
        ensures { line_gauge_data result ≡ record (line_gauge_data self.entry) { style = style } }
    {
        self.style = style;
        self
    }

    /// Sets the style of the filled columns.
    pub fn filled_style(mut self, style: Style) -> LineGauge<'a>
        ensures { line_gauge_data result ≡ record (line_gauge_data self.entry) { filled_style = style } }
    {
        self.filled_style = style;
        self
    }

    /// Sets the style of the other columns.
    pub fn unfilled_style(mut self, style: Style) -> LineGauge<'a>
        ensures { line_gauge_data result ≡ record (line_gauge_data self.entry) { unfilled_style = style } }
    {
        self.unfilled_style = style;
        self
    }

    /// Sets both styles. Filled columns have the foreground of `style`, the others its background as their foreground,
    /// and `Reset` if `style` doesn't set it. The background of both is `Reset`.
    pub fn gauge_style(mut self, style: Style) -> LineGauge<'a>
        ensures { line_gauge_data result ≡ record (line_gauge_data self.entry) {
          filled_style = symbol_style style style.fg;
          unfilled_style = symbol_style style style.bg;
        } }
    {
        self.filled_style = symbol_style(style, style.fg);
        self.unfilled_style = symbol_style(style, style.bg);
        self
    }

    /// Returns an equal copy. Fails with `NoMemory` if the block or the label can't be allocated.
    pub fn clone(&self) -> Mem<LineGauge<'a>>
        ensures is { IfOk result (λ gauge. line_gauge_data gauge ≡ line_gauge_data self.now) }
        ensures equal { IfOk result (λ gauge. ⟦<LineGauge<'a> as PartialEq>⟧.eq gauge self.now ≡ true) }
    {
        Ok(LineGauge {
            block: clone_if_some(&self.block)?,
            share: self.share,
            label: clone_label(&self.label)?,
            style: self.style,
            filled_symbol: self.filled_symbol,
            unfilled_symbol: self.unfilled_symbol,
            filled_style: self.filled_style,
            unfilled_style: self.unfilled_style,
        })
    }
}

impl<'a> Styled for LineGauge<'a> {
    ghost style_of = { λ gauge. gauge.style };

    ghost with_style = { λ gauge style. record gauge { style = style } };

    fn style(&self) -> Style {
        self.style
    }

    fn set_style(mut self, style: Style) -> LineGauge<'a> {
        self.style = style;
        self
    }
}
