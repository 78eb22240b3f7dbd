//! Bars of a chart.

ghost use Rattle.std.specs.Prelude.{◌≡◌, IfOk, Some, true};
ghost use Rattle.tui_bars.specs.BarChart.{bar_data, bar_of, label_width, value_text};
ghost use Rattle.tui_bars.specs.AllocationFreeCharts.{IsAllocationFreeText, IsAllocationFreeValue};
ghost use Rattle.tui_layout.specs.declared.direction.Direction.{Direction};
ghost use Rattle.tui_text.specs.Line.{line_data};

use crate::label::clone_label;
use itoa::Buffer as Digits;
use tui_cells::{FARTHEST_EDGE, Mem, Style, Styled};
use tui_text::Line;

/// A value, with a label and styles of its own.
#[derive(Debug, PartialEq, Eq, Hash)]
pub struct Bar<'a> {
    pub(crate) label: Option<Line<'a>>,
    pub(crate) value: u64,
    pub(crate) style: Style,
    pub(crate) value_style: Style,
    pub(crate) text_value: Option<&'a str>,
}

// Written by hand, so that dependent crates need no proofs about dropping the fields.
impl<'a> Drop for Bar<'a> {
    fn drop(self) {
        let Bar {
            label,
            value,
            style,
            value_style,
            text_value,
        } = self;
    }
}

impl<'a> Bar<'a> {
    /// Returns a bar of this value with nothing else set.
    pub fn new(value: u64) -> Bar<'a>
        ensures { bar_data result ≡ bar_of value }
    {
        Bar {
            label: None,
            value,
            style: Style::new(),
            value_style: Style::new(),
            text_value: None,
        }
    }

    /// Returns a bar of this value with a label.
    pub fn with_label(label: Line<'a>, value: u64) -> Bar<'a>
        ensures { bar_data result ≡ record (bar_of value) { label = Some (line_data label.entry) } }
    {
        Bar::new(value).label(label)
    }

    /// Sets the value.
    pub fn value(mut self, value: u64) -> Bar<'a>
        ensures { bar_data result ≡ record (bar_data self.entry) { value = value } }
    {
        self.value = value;
        self
    }

    /// Sets the label. It is drawn below the bar, or before it in a horizontal chart.
    pub fn label(mut self, label: Line<'a>) -> Bar<'a>
        ensures { bar_data result ≡ record (bar_data self.entry) { label = Some (line_data label.entry) } }
    {
        self.label = Some(label);
        self
    }

    /// Sets the style that patches the chart's bar style.
    pub fn style(mut self, style: Style) -> Bar<'a>
        ensures { bar_data result ≡ record (bar_data self.entry) { style = style } }
    {
        self.style = style;
        self
    }

    /// Sets the style that patches the chart's value style.
    pub fn value_style(mut self, style: Style) -> Bar<'a>
        ensures { bar_data result ≡ record (bar_data self.entry) { value_style = style } }
    {
        self.value_style = style;
        self
    }

    /// Sets the text that is shown instead of the value.
    pub fn text_value(mut self, text: &'a str) -> Bar<'a>
        ensures { bar_data result ≡ record (bar_data self.entry) { text = Some text.now } }
    {
        self.text_value = Some(text);
        self
    }

    /// Returns an equal copy. Fails with `NoMemory` if the label can't be allocated.
    pub fn clone(&self) -> Mem<Bar<'a>>
        ensures is { IfOk result (λ bar. bar_data bar ≡ bar_data self.now) }
        ensures equal { IfOk result (λ bar. ⟦<Bar<'a> as PartialEq>⟧.eq bar self.now ≡ true) }
    {
        Ok(Bar {
            label: clone_label(&self.label)?,
            value: self.value,
            style: self.style,
            value_style: self.value_style,
            text_value: self.text_value,
        })
    }

    /// Returns the width of the label in columns, at most 65535.
    pub(crate) fn label_width(&self) -> u16
        ensures { result ≡ label_width (bar_data self.now) }
    {
        match &self.label {
            None => 0,
            Some(label) => label.width().min(FARTHEST_EDGE as usize) as u16,
        }
    }

    /// Returns the text of the value: its own text if it has one, otherwise the decimal number, written into `digits`.
    pub(crate) fn value_text<'d>(&self, digits: &'d mut Digits) -> &'d str
    where
        'a: 'd,
        ensures is { result.now ≡ value_text (bar_data self.now) }
        ensures allocation_free { (direction : Direction) → IsAllocationFreeValue direction (bar_data self.now).text → IsAllocationFreeText direction result.now }
    {
        match self.text_value {
            Some(text) => text,
            None => digits.format(self.value),
        }
    }
}

impl<'a> Default for Bar<'a> {
    /// Returns a bar of the value 0 with nothing else set.
    fn default() -> Bar<'a>
        ensures { bar_data result ≡ bar_of 0 }
    {
        Bar::new(0)
    }
}

impl<'a> Styled for Bar<'a> {
    ghost style_of = { λ bar. bar.style };

    ghost with_style = { λ bar style. record bar { style = style } };

    fn style(&self) -> Style {
        self.style
    }

    fn set_style(mut self, style: Style) -> Bar<'a> {
        self.style = style;
        self
    }
}
