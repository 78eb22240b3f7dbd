//! Blocks that fill a cell from the left, in eighths.

ghost use Rattle.std.specs.Prelude.{◌≡◌, map};
ghost use Rattle.tui_cells.specs.Symbols.{block_symbols};

/// A full cell.
pub const FULL: &str = "█";

/// Seven eighths of a cell.
pub const SEVEN_EIGHTHS: &str = "▉";

/// Three quarters of a cell.
pub const THREE_QUARTERS: &str = "▊";

/// Five eighths of a cell.
pub const FIVE_EIGHTHS: &str = "▋";

/// Half of a cell.
pub const HALF: &str = "▌";

/// Three eighths of a cell.
pub const THREE_EIGHTHS: &str = "▍";

/// One quarter of a cell.
pub const ONE_QUARTER: &str = "▎";

/// One eighth of a cell.
pub const ONE_EIGHTH: &str = "▏";

// Each constant is what the table of symbols says.
fn symbols() -> [&'static str; 8]
    ensures { map (λ s. s.now) result ≡ block_symbols }
{
    [
        FULL,
        SEVEN_EIGHTHS,
        THREE_QUARTERS,
        FIVE_EIGHTHS,
        HALF,
        THREE_EIGHTHS,
        ONE_QUARTER,
        ONE_EIGHTH,
    ]
}
