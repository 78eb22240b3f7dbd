//! Laws of all bars.

ghost use Rattle.tui_bars.specs.Levels.{TickLaws};

/// The ticks of a bar, which are eighths of a cell, never fall as its value grows. They fill the bar if the value
/// reaches the greatest value and that is above 0.
pub fn tick_laws()
    ensures { TickLaws }
{}
