//! Tabs.

ghost use Rattle.std.specs.Prelude.{◌≡◌, ◌+◌, ◌-◌, ◌*◌, IfOk, Some, false, length, map, true};
ghost use Rattle.tui_frames.specs.Block.{block_data};
ghost use Rattle.tui_lists.specs.Tabs.{reversed, selected_in, tab_width, tabs_data, tabs_of, tabs_width};
ghost use Rattle.tui_text.specs.Line.{line_data};
ghost use Rattle.tui_text.specs.Span.{span_data};
ghost use Rattle.tui_clusters.specs.Width.{saturated};
ghost use Rattle.tui_text.specs.Width.{line_width, span_width};

mod rendering;

use std::alloc::Global;
use std::mem;
use tui_cells::{Mem, Modifier, Style, Styled, line};
use tui_frames::{Block, clone_if_some};
use tui_text::{Line, Span};

/// Titles side by side in one row, with dividers between them. One title may be selected.
#[derive(Debug, PartialEq, Eq, Hash)]
pub struct Tabs<'a> {
    block: Option<Block<'a>>,
    titles: Vec<Line<'a>>,
    padding_left: Line<'a>,
    padding_right: Line<'a>,
    selected: Option<usize>,
    style: Style,
    highlight_style: Style,
    divider: Span<'a>,
}

// Written out, so that dependent crates have nothing to prove about the fields when they drop them.
impl<'a> Drop for Tabs<'a> {
    fn drop(self) {
        let Tabs {
            block,
            titles,
            padding_left,
            padding_right,
            selected,
            style,
            highlight_style,
            divider,
        } = self;
    }
}

impl<'a> Tabs<'a> {
    /// Creates tabs with these titles, the first one selected. The selected title is drawn reversed. There is a light
    /// line between two titles, and a space on each side of a title. Fails with `NoMemory` if there is no memory for
    /// the spaces.
    pub fn new(alloc: Global, titles: Vec<Line<'a>>) -> Mem<Tabs<'a>>
        ensures { IfOk result (λ tabs. tabs_data tabs ≡ tabs_of (map line_data titles.entry.items)) }
    {
        let left = Line::raw(alloc, " ")?;
        let right = Line::raw(alloc, " ")?;
        Ok(Tabs::between(left, titles, right))
    }

    /// Creates tabs with these paddings.
    fn between(left: Line<'a>, titles: Vec<Line<'a>>, right: Line<'a>) -> Tabs<'a>
        ensures { tabs_data result ≡ record (tabs_of (map line_data titles.entry.items)) {
          padding_left = line_data left.entry;
          padding_right = line_data right.entry;
        } }
    {
        let selected = selected_in(titles.len(), None);
        Tabs {
            block: None,
            titles,
            padding_left: left,
            padding_right: right,
            selected,
            style: Style::new(),
            highlight_style: reversed(),
            divider: Span::raw(line::VERTICAL),
        }
    }

    /// Replaces the titles. If there are none, none is selected. Otherwise the selected index stays, or becomes the
    /// last one. If none was selected, the first is.
    pub fn titles(mut self, titles: Vec<Line<'a>>) -> Tabs<'a>
        ensures { tabs_data result ≡ record (tabs_data self.entry) {
          titles = map line_data titles.entry.items;
          selected = selected_in (length titles.entry.items) (tabs_data self.entry).selected;
        } }
    {
        self.selected = selected_in(titles.len(), self.selected);
        self.titles = titles;
        self
    }

    /// Surrounds the tabs with a block. The titles are drawn in the first row inside it.
    pub fn block(mut self, block: Block<'a>) -> Tabs<'a>
        ensures { tabs_data result ≡ record (tabs_data self.entry) { block = Some (block_data block.entry) } }
    {
        self.block = Some(block);
        self
    }

    /// Selects a title by its index, or none. An index past the last title selects none.
    pub fn select(mut self, selected: Option<usize>) -> Tabs<'a>
        ensures { tabs_data result ≡ record (tabs_data self.entry) { selected = selected } }
    {
        self.selected = selected;
        self
    }

    /// Sets the base style of the whole area.
    pub fn style(mut self, style: Style) -> Tabs<'a>
        ensures { tabs_data result ≡ record (tabs_data self.entry) { style = style } }
    {
        self.style = style;
        self
    }

    /// Sets the style that is drawn over the selected title, without its paddings.
    pub fn highlight_style(mut self, style: Style) -> Tabs<'a>
        ensures { tabs_data result ≡ record (tabs_data self.entry) { highlight_style = style } }
    {
        self.highlight_style = style;
        self
    }

    /// Sets the divider between two titles.
    pub fn divider(mut self, divider: Span<'a>) -> Tabs<'a>
        ensures { tabs_data result ≡ record (tabs_data self.entry) { divider = span_data divider.entry } }
    {
        self.divider = divider;
        self
    }

    /// Sets the padding at the left of each title.
    pub fn padding_left(mut self, padding: Line<'a>) -> Tabs<'a>
        ensures { tabs_data result ≡ record (tabs_data self.entry) { padding_left = line_data padding.entry } }
    {
        drop(mem::replace(&mut self.padding_left, padding));
        self
    }

    /// Sets the padding at the right of each title.
    pub fn padding_right(mut self, padding: Line<'a>) -> Tabs<'a>
        ensures { tabs_data result ≡ record (tabs_data self.entry) { padding_right = line_data padding.entry } }
    {
        drop(mem::replace(&mut self.padding_right, padding));
        self
    }

    /// Sets the paddings at both sides of each title.
    pub fn padding(mut self, left: Line<'a>, right: Line<'a>) -> Tabs<'a>
        ensures { tabs_data result ≡ record (tabs_data self.entry) {
          padding_left = line_data left.entry;
          padding_right = line_data right.entry;
        } }
    {
        drop(mem::replace(&mut self.padding_left, left));
        drop(mem::replace(&mut self.padding_right, right));
        self
    }

    /// Returns the width of all titles with their paddings and of the dividers between them, in columns. Saturates at
    /// the greatest 64-bit number.
    pub fn width(&self) -> usize
        ensures { result ≡ saturated (tabs_width false (tabs_data self.now)) }
    {
        self.columns(false)
    }

    /// Returns the same width if ambiguous characters are wide.
    pub fn width_cjk(&self) -> usize
        ensures { result ≡ saturated (tabs_width true (tabs_data self.now)) }
    {
        self.columns(true)
    }

    fn columns(&self, cjk: bool) -> usize
        ensures { result ≡ saturated (tabs_width cjk (tabs_data self.now)) }
    {
        let mut columns = 0usize;
        for title in &self.titles {
            columns = columns.saturating_add(self.tab_columns(title, cjk));
        }
        columns.saturating_add(self.divider_columns(cjk))
    }

    /// Returns the width of a title with its paddings, in columns.
    fn tab_columns(&self, title: &Line<'a>, cjk: bool) -> usize
        ensures { result ≡ saturated (tab_width cjk (tabs_data self.now) (line_data title.now)) }
    {
        line_columns(&self.padding_left, cjk)
            .saturating_add(line_columns(title, cjk))
            .saturating_add(line_columns(&self.padding_right, cjk))
    }

    /// Returns the width of all dividers, in columns.
    #[tactic(auto, using(crate::proofs::TabsPainted::saturated_product))]
    fn divider_columns(&self, cjk: bool) -> usize
        ensures { result ≡ saturated ((length (tabs_data self.now).titles - 1) * span_width cjk (tabs_data self.now).divider) }
    {
        let divider = if cjk {
            self.divider.width_cjk()
        } else {
            self.divider.width()
        };
        self.titles.len().saturating_sub(1).saturating_mul(divider)
    }

    /// Returns equal tabs. Fails with `NoMemory` if there is no memory for the titles, the paddings or the block.
    pub fn clone(&self) -> Mem<Tabs<'a>>
        ensures is { IfOk result (λ tabs. tabs_data tabs ≡ tabs_data self.now) }
        ensures equal { IfOk result (λ tabs. ⟦<Tabs<'a> as PartialEq>⟧.eq tabs self.now ≡ true) }
    {
        Ok(Tabs {
            block: clone_if_some(&self.block)?,
            titles: clone_lines(&self.titles)?,
            padding_left: self.padding_left.clone()?,
            padding_right: self.padding_right.clone()?,
            selected: self.selected,
            style: self.style,
            highlight_style: self.highlight_style,
            divider: self.divider,
        })
    }
}

fn reversed() -> Style
    ensures { result ≡ reversed }
{
    Style::new().add_modifier(Modifier::REVERSED)
}

/// Returns which of `count` titles is selected, if `selected` was before.
fn selected_in(count: usize, selected: Option<usize>) -> Option<usize>
    ensures { result ≡ selected_in count selected }
{
    if count == 0 {
        return None;
    }
    Some(selected.unwrap_or(0).min(count - 1))
}

fn line_columns(line: &Line<'_>, cjk: bool) -> usize
    ensures { result ≡ saturated (line_width cjk (line_data line.now)) }
{
    if cjk { line.width_cjk() } else { line.width() }
}

fn clone_lines<'a>(lines: &Vec<Line<'a>>) -> Mem<Vec<Line<'a>>>
    ensures is { IfOk result (λ copy. map line_data copy.items ≡ map line_data lines.now.items) }
    ensures equal { IfOk result (λ copy. ⟦<Vec<Line<'a>> as PartialEq>⟧.eq copy lines.now ≡ true) }
{
    let mut copy = Vec::with_capacity(*lines.allocator(), lines.len())?;
    for line in lines {
        copy.push(line.clone()?)?;
    }
    Ok(copy)
}

impl<'a> Styled for Tabs<'a> {
    ghost style_of = { λ tabs. tabs.style };

    ghost with_style = { λ tabs style. record tabs { style = style } };

    fn style(&self) -> Style {
        self.style
    }

    fn set_style(mut self, style: Style) -> Tabs<'a> {
        self.style = style;
        self
    }
}
