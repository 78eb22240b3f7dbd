//! The logo.

ghost use Rattle.std.specs.Prelude.{◌≡◌, IsOk, OnOk};
ghost use Rattle.tui_cells.specs.Layers.{KeptOutside, Painted};
ghost use Rattle.tui_cells.specs.Rect.{covers};
ghost use Rattle.tui_para.specs.Logo.{logo_drawing, logo_layers, lower_line, upper_line};
ghost use Rattle.tui_text.specs.Line.{raw_line};
ghost use Rattle.tui_text.specs.Painting.{row_layers};
ghost use Rattle.tui_text.specs.Setting.{AreAllocationFree};
ghost use Rattle.tui_text.specs.declared.alignment.Alignment.TheVariants.{Left};

use crate::size::Size;
use std::alloc::Global;
use tui_cells::{Buffer, Mem, Rect, Style, Widget};
use tui_text::{Alignment, Span, below, paint_spans};

/// The logo, in two rows from the area's corner on. It has no style: cells keep their colours and modifiers.
#[derive(Clone, Copy, Debug, PartialEq, Eq)]
pub struct RatatuiLogo {
    size: Size,
}

impl RatatuiLogo {
    /// Creates the logo in this size.
    pub fn new(size: Size) -> RatatuiLogo
        ensures { result.size ≡ size }
    {
        RatatuiLogo { size }
    }

    /// Sets the size.
    pub fn size(self, size: Size) -> RatatuiLogo
        ensures { result ≡ record self { size = size } }
    {
        RatatuiLogo { size, ..self }
    }

    /// Creates the tiny logo, 15 columns wide.
    pub fn tiny() -> RatatuiLogo
        ensures { result.size ≡ Size.Tiny }
    {
        RatatuiLogo::new(Size::Tiny)
    }

    /// Creates the small logo, 27 columns wide.
    pub fn small() -> RatatuiLogo
        ensures { result.size ≡ Size.Small }
    {
        RatatuiLogo::new(Size::Small)
    }

    /// The first line.
    fn upper(&self) -> &'static str
        ensures is { result.now ≡ upper_line self.now.size }
        ensures allocation_free { AreAllocationFree (raw_line result.now).spans }
    {
        match self.size {
            Size::Tiny => "▛▚▗▀▖▜▘▞▚▝▛▐ ▌▌",
            Size::Small => "█▀▀▄ ▄▀▀▄▝▜▛▘▄▀▀▄▝▜▛▘█  █ █",
        }
    }

    /// The second line.
    fn lower(&self) -> &'static str
        ensures is { result.now ≡ lower_line self.now.size }
        ensures allocation_free { AreAllocationFree (raw_line result.now).spans }
    {
        match self.size {
            Size::Tiny => "▛▚▐▀▌▐ ▛▜ ▌▝▄▘▌",
            Size::Small => "█▀▀▄ █▀▀█ ▐▌ █▀▀█ ▐▌ ▀▄▄▀ █",
        }
    }

    fn paint_in(&self, buf: &mut Buffer, clip: Rect) -> Mem<()>
        ensures ok { OnOk result (Painted (logo_layers self.now.size clip) buf.old buf.new) }
        ensures kept { KeptOutside (covers clip) buf.old buf.new }
        ensures allocation_free { IsOk result }
    {
        buf.set_style(clip, Style::new());
        paint_raw(buf, clip, self.upper())?;
        paint_raw(buf, below(clip), self.lower())
    }
}

impl Default for RatatuiLogo {
    /// The tiny logo.
    fn default() -> RatatuiLogo
        ensures { result.size ≡ Size.Tiny }
    {
        RatatuiLogo::tiny()
    }
}

/// Paints a text as a line of one span in the first row of an area.
fn paint_raw(buf: &mut Buffer, area: Rect, text: &str) -> Mem<()>
    ensures ok { OnOk result (Painted (row_layers area Left (raw_line text.now)) buf.old buf.new) }
    ensures kept { KeptOutside (covers area) buf.old buf.new }
    ensures allocation_free { AreAllocationFree (raw_line text.now).spans → IsOk result }
{
    paint_spans(buf, area, &[Span::raw(text)], Style::new(), Alignment::Left)
}

impl Widget for RatatuiLogo {
    ghost drawing = { λ logo. logo_drawing logo.size };

    fn render(&self, alloc: Global, area: Rect, buf: &mut Buffer) -> Mem<()> {
        self.paint_in(buf, area.intersection(buf.area()))
    }
}
