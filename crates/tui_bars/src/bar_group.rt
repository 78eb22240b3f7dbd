//! Groups of bars.

ghost use Rattle.std.specs.Prelude.{◌≡◌, [], ◌∷◌, ◌++◌, IfOk, OnErr, OnOk, Some, None, length, map, true};
ghost use Rattle.tui_bars.specs.BarChart.{bar_data, bar_of, greatest_in, group_data, has_bar_label, has_bars, label_width_in};
ghost use Rattle.tui_text.specs.Line.{line_data, raw_line};

use crate::bar::Bar;
use crate::label::clone_label;
use tui_cells::Mem;
use tui_text::Line;

/// Bars side by side under one label.
#[derive(Debug, PartialEq, Eq, Hash)]
pub struct BarGroup<'a> {
    pub(crate) label: Option<Line<'a>>,
    pub(crate) bars: Vec<Bar<'a>>,
}

// Written by hand, so that dependent crates need no proofs about dropping the fields.
impl<'a> Drop for BarGroup<'a> {
    fn drop(self) {
        let BarGroup { label, bars } = self;
    }
}

impl<'a> BarGroup<'a> {
    /// Returns a group of these bars without a label.
    pub fn new(bars: Vec<Bar<'a>>) -> BarGroup<'a>
        ensures { group_data result ≡ record { label = None; bars = map bar_data bars.entry.items } }
    {
        BarGroup { label: None, bars }
    }

    /// Returns a group of these bars with a label.
    pub fn with_label(label: Line<'a>, bars: Vec<Bar<'a>>) -> BarGroup<'a>
        ensures { group_data result ≡ record { label = Some (line_data label.entry); bars = map bar_data bars.entry.items } }
    {
        BarGroup {
            label: Some(label),
            bars,
        }
    }

    /// Sets the label.
    pub fn label(mut self, label: Line<'a>) -> BarGroup<'a>
        ensures { group_data result ≡ record (group_data self.entry) { label = Some (line_data label.entry) } }
    {
        self.label = Some(label);
        self
    }

    /// Replaces the bars.
    pub fn bars(mut self, bars: Vec<Bar<'a>>) -> BarGroup<'a>
        ensures { group_data result ≡ record (group_data self.entry) { bars = map bar_data bars.entry.items } }
    {
        self.bars = bars;
        self
    }

    /// Appends a bar of a value with a label. On `NoMemory` the group is unchanged.
    pub fn push_pair(&mut self, label: &'a str, value: u64) -> Mem<()>
        ensures ok { OnOk result (group_data self.new ≡ record (group_data self.old) {
          bars = (group_data self.old).bars ++ record (bar_of value) { label = Some (raw_line label.now) } ∷ [];
        }) }
        ensures err { OnErr result (group_data self.new ≡ group_data self.old) }
    {
        let alloc = *self.bars.allocator();
        let label = Line::raw(alloc, label)?;
        self.bars.push(Bar::with_label(label, value))?;
        Ok(())
    }

    /// Returns an equal copy. Fails with `NoMemory` if the label or the bars can't be allocated.
    pub fn clone(&self) -> Mem<BarGroup<'a>>
        ensures is { IfOk result (λ group. group_data group ≡ group_data self.now) }
        ensures equal { IfOk result (λ group. ⟦<BarGroup<'a> as PartialEq>⟧.eq group self.now ≡ true) }
    {
        let mut bars = Vec::with_capacity(*self.bars.allocator(), self.bars.len())?;
        for bar in &self.bars {
            bars.push(bar.clone()?)?;
        }
        Ok(BarGroup {
            label: clone_label(&self.label)?,
            bars,
        })
    }

    /// The number of bars.
    pub(crate) fn len(&self) -> usize
        ensures { result ≡ length (group_data self.now).bars }
    {
        self.bars.len()
    }

    pub(crate) fn has_bars(&self) -> bool
        ensures { result ≡ has_bars (group_data self.now) }
    {
        self.len() > 0
    }

    /// Returns the greatest value, or 0 without bars.
    pub(crate) fn greatest(&self) -> u64
        ensures { result ≡ greatest_in (group_data self.now) }
    {
        let mut most = 0;
        for bar in &self.bars {
            most = most.max(bar.value);
        }
        most
    }

    /// Returns the width of the widest bar label in columns.
    pub(crate) fn label_width(&self) -> u16
        ensures { result ≡ label_width_in (group_data self.now) }
    {
        let mut most = 0;
        for bar in &self.bars {
            most = most.max(bar.label_width());
        }
        most
    }

    /// Returns whether any bar has a label.
    pub(crate) fn has_bar_label(&self) -> bool
        ensures { result ≡ has_bar_label (group_data self.now) }
    {
        for bar in &self.bars {
            if bar.label.is_some() {
                return true;
            }
        }
        false
    }
}
