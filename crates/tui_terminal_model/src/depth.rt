//! How many colours a terminal has.

/// Which colours are sent. Marks, such as bold, are sent at every depth.
#[derive(Clone, Copy, Debug, PartialEq, Eq)]
pub enum Depth {
    /// No colours.
    None,
    /// The sixteen named colours, so that the user's theme applies. Any other becomes the nearest of them, as
    /// xterm has them by default.
    Sixteen,
    /// The named colours and the palette of 256. An RGB colour becomes the nearest of the
    /// palette's cube and grays.
    Palette,
    /// All colours, unchanged.
    True,
}
