//! The bars of a sparkline.

use tui_cells::Style;

/// A value, which may be absent, and optionally its own style.
#[derive(Clone, Copy, Debug, PartialEq, Eq)]
pub struct SparklineBar {
    pub(crate) value: Option<u64>,
    pub(crate) style: Option<Style>,
}

impl SparklineBar {
    ghost use Rattle.std.specs.Prelude.{◌≡◌};
    ghost use Rattle.tui_bars.specs.Sparkline.{sparkline_bar_data};

    /// Sets or clears the style that patches the style of the sparkline.
    pub fn style(self, style: Option<Style>) -> SparklineBar
        ensures { sparkline_bar_data result ≡ record (sparkline_bar_data self) { style = style } }
    {
        SparklineBar { style, ..self }
    }
}

impl Default for SparklineBar {
    ghost use Rattle.std.specs.Prelude.{◌≡◌, None};
    ghost use Rattle.tui_bars.specs.Sparkline.{sparkline_bar_data};

    /// Returns a bar without a value and a style.
    fn default() -> SparklineBar
        ensures { sparkline_bar_data result ≡ record { value = None; style = None } }
    {
        SparklineBar {
            value: None,
            style: None,
        }
    }
}

/// A value without a style of its own.
impl From<u64> for SparklineBar {
    ghost use Rattle.std.specs.Prelude.{◌≡◌, None, Some};
    ghost use Rattle.tui_bars.specs.Sparkline.{sparkline_bar_data};

    ghost from_gives = { λ value bar. sparkline_bar_data bar ≡ record { value = Some value; style = None } };

    fn from(value: u64) -> SparklineBar {
        SparklineBar {
            value: Some(value),
            style: None,
        }
    }
}

/// A value by reference, without a style of its own.
impl From<&u64> for SparklineBar {
    ghost use Rattle.std.specs.Prelude.{◌≡◌, None, Some};
    ghost use Rattle.tui_bars.specs.Sparkline.{sparkline_bar_data};

    ghost from_gives = { λ value bar. sparkline_bar_data bar ≡ record { value = Some value.now; style = None } };

    fn from(value: &u64) -> SparklineBar {
        SparklineBar {
            value: Some(*value),
            style: None,
        }
    }
}

/// A value that may be absent, without a style of its own.
impl From<Option<u64>> for SparklineBar {
    ghost use Rattle.std.specs.Prelude.{◌≡◌, None};
    ghost use Rattle.tui_bars.specs.Sparkline.{sparkline_bar_data};

    ghost from_gives = { λ value bar. sparkline_bar_data bar ≡ record { value = value; style = None } };

    fn from(value: Option<u64>) -> SparklineBar {
        SparklineBar { value, style: None }
    }
}

/// A value by reference that may be absent, without a style of its own.
impl From<&Option<u64>> for SparklineBar {
    ghost use Rattle.std.specs.Prelude.{◌≡◌, None};
    ghost use Rattle.tui_bars.specs.Sparkline.{sparkline_bar_data};

    ghost from_gives = { λ value bar. sparkline_bar_data bar ≡ record { value = value.now; style = None } };

    fn from(value: &Option<u64>) -> SparklineBar {
        SparklineBar {
            value: *value,
            style: None,
        }
    }
}
