//! How a buffer is sent.

use crate::depth::Depth;
use crate::widths::KnownWidths;

/// How a buffer is sent to a terminal.
#[derive(Clone, Copy, Debug, PartialEq, Eq)]
pub struct Output {
    /// Which colours are sent.
    pub depth: Depth,
    /// Which symbols have a known width on the terminal.
    pub widths: KnownWidths,
    /// Whether to use synchronized output, so that the terminal shows the frame at once.
    pub synchronized: bool,
}
