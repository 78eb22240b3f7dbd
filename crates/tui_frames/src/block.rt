//! Frames with titles around an area.

ghost use Rattle.std.specs.Prelude.{◌≡◌, [], ◌∷◌, ◌++◌, true, IfOk, None, map, OnErr, OnOk, Some};
ghost use Rattle.tui_cells.specs.Symbols.{border_data};
ghost use Rattle.tui_frames.specs.Block.{block_data, block_of, title_data};
ghost use Rattle.tui_frames.specs.BorderType.{symbols_of};
ghost use Rattle.tui_frames.specs.Shadow.{shadow_data};
ghost use Rattle.tui_text.specs.Line.{line_data};

mod effect;
mod rendering;
mod sides;
mod space;
mod title;
mod titles;

pub use crate::block::title::Title;
use crate::border_type::BorderType;
use crate::borders::Borders;
use crate::padding::Padding;
use crate::shadow::Shadow;
use crate::title_position::TitlePosition;
use std::alloc::Global;
use tui_cells::{Mem, MergeStrategy, Style, Styled, border};
use tui_text::{Alignment, Line};

/// A frame around its content: a style in its whole area, borders on some sides, titles in the first and in the last
/// row, free space inside, and a shadow.
#[derive(Debug, PartialEq, Eq, Hash)]
pub struct Block<'a> {
    titles: Vec<Title<'a>>,
    title_style: Style,
    title_alignment: Alignment,
    title_position: TitlePosition,
    borders: Borders,
    border_style: Style,
    border_set: border::Set<'a>,
    style: Style,
    padding: Padding,
    merge_borders: MergeStrategy,
    shadow: Option<Shadow<'a>>,
}

// Written out so that dependent crates need no proof about its fields to drop it.
impl<'a> Drop for Block<'a> {
    fn drop(self) {
        let Block {
            titles,
            title_style,
            title_alignment,
            title_position,
            borders,
            border_style,
            border_set,
            style,
            padding,
            merge_borders,
            shadow,
        } = self;
    }
}

impl<'a> Block<'a> {
    /// Returns a block without borders, titles, padding, styles and shadow. Its border symbols are the plain ones, and
    /// replace those that are already there. Its titles are at the top and aligned to the left.
    pub fn new(alloc: Global) -> Block<'a>
        ensures { block_data result ≡ block_of 0 }
    {
        Block::with_borders(alloc, Borders::NONE)
    }

    /// The same with borders on all sides.
    pub fn bordered(alloc: Global) -> Block<'a>
        ensures { block_data result ≡ block_of 15 }
    {
        Block::with_borders(alloc, Borders::ALL)
    }

    fn with_borders(alloc: Global, borders: Borders) -> Block<'a>
        ensures { block_data result ≡ block_of borders.bits }
    {
        Block {
            titles: Vec::new(alloc),
            title_style: Style::new(),
            title_alignment: Alignment::Left,
            title_position: TitlePosition::Top,
            borders,
            border_style: Style::new(),
            border_set: BorderType::Plain.to_border_set(),
            style: Style::new(),
            padding: Padding::ZERO,
            merge_borders: MergeStrategy::Replace,
            shadow: None,
        }
    }

    /// Adds a title after the others. It is placed on the side that `title_position` names. Its alignment is its own,
    /// or else the one that `title_alignment` names. Fails with `NoMemory` if memory runs out; the block is then
    /// unchanged, and the title is dropped.
    pub fn title(&mut self, title: Line<'a>) -> Mem<()>
        ensures ok { OnOk result (block_data self.new ≡ record (block_data self.old) {
          titles = (block_data self.old).titles ++ record { line = line_data title.entry; position = None } ∷ [];
        }) }
        ensures err { OnErr result (block_data self.new ≡ block_data self.old) }
    {
        self.push(title, None)
    }

    /// Adds a title after the others, at the top. Fails with `NoMemory` as `title` does.
    pub fn title_top(&mut self, title: Line<'a>) -> Mem<()>
        ensures ok { OnOk result (block_data self.new ≡ record (block_data self.old) {
          titles = (block_data self.old).titles ++ record { line = line_data title.entry; position = Some TitlePosition.Top } ∷ [];
        }) }
        ensures err { OnErr result (block_data self.new ≡ block_data self.old) }
    {
        self.push(title, Some(TitlePosition::Top))
    }

    /// Adds a title after the others, at the bottom. Fails with `NoMemory` as `title` does.
    pub fn title_bottom(&mut self, title: Line<'a>) -> Mem<()>
        ensures ok { OnOk result (block_data self.new ≡ record (block_data self.old) {
          titles = (block_data self.old).titles ++ record { line = line_data title.entry; position = Some TitlePosition.Bottom } ∷ [];
        }) }
        ensures err { OnErr result (block_data self.new ≡ block_data self.old) }
    {
        self.push(title, Some(TitlePosition::Bottom))
    }

    fn push(&mut self, line: Line<'a>, position: Option<TitlePosition>) -> Mem<()>
        ensures ok { OnOk result (block_data self.new ≡ record (block_data self.old) {
          titles = (block_data self.old).titles ++ record { line = line_data line.entry; position = position } ∷ [];
        }) }
        ensures err { OnErr result (block_data self.new ≡ block_data self.old) }
    {
        self.titles.push(Title { line, position })?;
        Ok(())
    }

    /// Returns an equal block with titles of its own. Fails with `NoMemory` if these can't be allocated.
    pub fn clone(&self) -> Mem<Block<'a>>
        ensures is { IfOk result (λ block. block_data block ≡ block_data self.now) }
        ensures equal { IfOk result (λ block. ⟦<Block<'a> as PartialEq>⟧.eq block self.now ≡ true) }
    {
        let mut titles = Vec::with_capacity(*self.titles.allocator(), self.titles.len())?;
        for title in &self.titles {
            titles.push(title.clone()?)?;
        }
        Ok(Block { titles, ..*self })
    }

    /// Replaces the titles by these.
    pub fn titles(mut self, titles: Vec<Title<'a>>) -> Block<'a>
        ensures { block_data result ≡ record (block_data self.entry) { titles = map title_data titles.entry.items } }
    {
        self.titles = titles;
        self
    }

    /// Sets the style under the titles.
    pub fn title_style(mut self, style: Style) -> Block<'a>
        ensures { block_data result ≡ record (block_data self.entry) { title_style = style } }
    {
        self.title_style = style;
        self
    }

    /// Sets the alignment of the titles that have none of their own.
    pub fn title_alignment(mut self, alignment: Alignment) -> Block<'a>
        ensures { block_data result ≡ record (block_data self.entry) { title_alignment = alignment } }
    {
        self.title_alignment = alignment;
        self
    }

    /// Sets the side of the titles that have none of their own.
    pub fn title_position(mut self, position: TitlePosition) -> Block<'a>
        ensures { block_data result ≡ record (block_data self.entry) { title_position = position } }
    {
        self.title_position = position;
        self
    }

    /// Sets the style of the borders.
    pub fn border_style(mut self, style: Style) -> Block<'a>
        ensures { block_data result ≡ record (block_data self.entry) { border_style = style } }
    {
        self.border_style = style;
        self
    }

    /// Sets the style of the whole block, under everything else.
    pub fn style(mut self, style: Style) -> Block<'a>
        ensures { block_data result ≡ record (block_data self.entry) { style = style } }
    {
        self.style = style;
        self
    }

    /// Sets the sides that have borders.
    pub fn borders(mut self, borders: Borders) -> Block<'a>
        ensures { block_data result ≡ record (block_data self.entry) { borders = borders } }
    {
        self.borders = borders;
        self
    }

    /// Sets the border symbols to those of a kind.
    pub fn border_type(mut self, kind: BorderType) -> Block<'a>
        ensures { block_data result ≡ record (block_data self.entry) { symbols = symbols_of kind } }
    {
        self.border_set = kind.to_border_set();
        self
    }

    /// Sets the border symbols.
    pub fn border_set(mut self, set: border::Set<'a>) -> Block<'a>
        ensures { block_data result ≡ record (block_data self.entry) { symbols = border_data set.entry } }
    {
        self.border_set = set;
        self
    }

    /// Sets the columns and rows that are left free inside.
    pub fn padding(mut self, padding: Padding) -> Block<'a>
        ensures { block_data result ≡ record (block_data self.entry) { padding = padding } }
    {
        self.padding = padding;
        self
    }

    /// Sets how border symbols are joined with those that are already there.
    pub fn merge_borders(mut self, strategy: MergeStrategy) -> Block<'a>
        ensures { block_data result ≡ record (block_data self.entry) { strategy = strategy } }
    {
        self.merge_borders = strategy;
        self
    }

    /// Sets the shadow.
    pub fn shadow(mut self, shadow: Shadow<'a>) -> Block<'a>
        ensures { block_data result ≡ record (block_data self.entry) { shadow = Some (shadow_data shadow.entry) } }
    {
        self.shadow = Some(shadow);
        self
    }
}

impl<'a> Styled for Block<'a> {
    ghost style_of = { λ block. block.style };

    ghost with_style = { λ block style. record block { style = style } };

    fn style(&self) -> Style {
        self.style
    }

    fn set_style(mut self, style: Style) -> Block<'a> {
        self.style = style;
        self
    }
}
