//! Areas filled to a share.

ghost use Rattle.std.specs.Prelude.{◌≡◌, ◌<◌, ◌≤◌, Err, IfOk, IsOk, Some, true};
ghost use Rattle.tui_bars.specs.Gauge.{empty_gauge, gauge_data};
ghost use Rattle.tui_frames.specs.Block.{block_data};
ghost use Rattle.tui_text.specs.Span.{span_data};

mod rendering;

use crate::error::GaugeError;
use crate::percent::{share_of, share_of_percent};
use crate::share::Share;
use tui_cells::{Mem, Style, Styled};
use tui_frames::{Block, clone_if_some};
use tui_layout::Fraction;
use tui_text::Span;

/// An area whose first columns are filled to a share, with a label in the middle. If no label is set, it is the
/// percentage. In filled cells under the label, foreground and background are swapped.
#[derive(Debug, PartialEq, Eq)]
pub struct Gauge<'a> {
    block: Option<Block<'a>>,
    share: Share,
    label: Option<Span<'a>>,
    style: Style,
    gauge_style: Style,
    use_unicode: bool,
}

// Written by hand, so that dependent crates need no proofs about dropping the fields.
impl<'a> Drop for Gauge<'a> {
    fn drop(self) {
        let Gauge {
            block,
            share,
            label,
            style,
            gauge_style,
            use_unicode,
        } = self;
    }
}

impl<'a> Default for Gauge<'a> {
    /// Returns a gauge of 0/1 with nothing else set.
    fn default() -> Gauge<'a>
        ensures { gauge_data result ≡ empty_gauge }
    {
        Gauge {
            block: None,
            share: Share { num: 0, den: 1 },
            label: None,
            style: Style::new(),
            gauge_style: Style::new(),
            use_unicode: false,
        }
    }
}

impl<'a> Gauge<'a> {
    /// Sets the block around the gauge. The gauge is drawn in the block's inner area.
    pub fn block(mut self, block: Block<'a>) -> Gauge<'a>
        ensures { gauge_data result ≡ record (gauge_data self.entry) { block = Some (block_data block.entry) } }
    {
        self.block = Some(block);
        self
    }

    /// Sets the share in percent. Fails with `PercentAbove100` if and only if `percent` is above 100. The gauge is then
    /// dropped.
    pub fn percent(mut self, percent: u16) -> Result<Gauge<'a>, GaugeError>
        ensures ok { percent ≤ 100 → IsOk result }
        ensures is { IfOk result (λ gauge. gauge_data gauge ≡ record (gauge_data self.entry) { num = percent; den = 100 }) }
        ensures rejected { 100 < percent → result ≡ Err GaugeError.PercentAbove100 }
    {
        let share = share_of_percent(percent)?;
        self.share = share;
        Ok(self)
    }

    /// Sets the share. Fails with `RatioOutOfRange` if and only if the denominator is 0 or the numerator is above it.
    /// The gauge is then dropped.
    pub fn ratio(mut self, ratio: Fraction) -> Result<Gauge<'a>, GaugeError>
        ensures ok { 0 < ratio.den → ratio.num ≤ ratio.den → IsOk result }
        ensures is { IfOk result (λ gauge. gauge_data gauge ≡ record (gauge_data self.entry) { num = ratio.num; den = ratio.den }) }
        ensures zero { ratio.den ≡ 0 → result ≡ Err GaugeError.RatioOutOfRange }
        ensures above { ratio.den < ratio.num → result ≡ Err GaugeError.RatioOutOfRange }
    {
        let share = share_of(ratio)?;
        self.share = share;
        Ok(self)
    }

    /// Sets the label, instead of the percentage.
    pub fn label(mut self, label: Span<'a>) -> Gauge<'a>
        ensures { gauge_data result ≡ record (gauge_data self.entry) { label = Some (span_data label.entry) } }
    {
        self.label = Some(label);
        self
    }

    /// Sets the style under everything, including the block's area.
    pub fn style(mut self, style: Style) -> Gauge<'a>
        ensures { gauge_data result ≡ record (gauge_data self.entry) { style = style } }
    {
        self.style = style;
        self
    }

    /// Sets the style inside the block. Filled cells have its colours, `Reset` for a colour that it doesn't set.
    pub fn gauge_style(mut self, style: Style) -> Gauge<'a>
        ensures { gauge_data result ≡ record (gauge_data self.entry) { gauge_style = style } }
    {
        self.gauge_style = style;
        self
    }

    /// Sets whether the column after the completely filled ones shows its filled eighths. Otherwise the number of
    /// filled columns is rounded.
    pub fn use_unicode(mut self, use_unicode: bool) -> Gauge<'a>
        ensures { gauge_data result ≡ record (gauge_data self.entry) { use_unicode = use_unicode } }
    {
        self.use_unicode = use_unicode;
        self
    }

    /// Returns an equal copy. Fails with `NoMemory` if the block can't be allocated.
    pub fn clone(&self) -> Mem<Gauge<'a>>
        ensures is { IfOk result (λ gauge. gauge_data gauge ≡ gauge_data self.now) }
        ensures equal { IfOk result (λ gauge. ⟦<Gauge<'a> as PartialEq>⟧.eq gauge self.now ≡ true) }
    {
        Ok(Gauge {
            block: clone_if_some(&self.block)?,
            share: self.share,
            label: self.label,
            style: self.style,
            gauge_style: self.gauge_style,
            use_unicode: self.use_unicode,
        })
    }
}

impl<'a> Styled for Gauge<'a> {
    ghost style_of = { λ gauge. gauge.style };

    ghost with_style = { λ gauge style. record gauge { style = style } };

    fn style(&self) -> Style {
        self.style
    }

    fn set_style(mut self, style: Style) -> Gauge<'a> {
        self.style = style;
        self
    }
}
