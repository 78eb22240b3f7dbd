//! Cells of a buffer.

ghost use Rattle.std.specs.Prelude.{◌≡◌, ◌↔◌, ◌<◌, IsOk, IsTrue, IfOk, OnOk, OnErr, length, string_bytes};
ghost use Rattle.tui_cells.specs.Attributes.{look_of};
ghost use Rattle.tui_cells.specs.Cell.{IsUnstyled, IsAllocationFree, IsSymbol, blank, dim, set_style, edited, merge, write, wipe};

use crate::attributes::Attributes;
use crate::color::Color;
use crate::content::{Content, SHORT, blank_symbol};
use crate::memory::Mem;
use crate::merge_strategy::MergeStrategy;
use crate::modifier::Modifier;
use crate::style::Style;
use arrayvec::ArrayString;
use std::alloc::Global;
use std::marker::Model;
use std::rc::Rc;

/// A symbol with its colours and modifiers. The symbol is a string that is not empty. A symbol of at most 8 bytes is
/// stored in the cell; a longer one is allocated.
#[derive(Drop)]
pub struct Cell {
    alloc: Global,
    content: Content,
}

impl Model for Cell {
    ghost use Rattle.tui_cells.specs.Attributes.{content_look};
    ghost use Rattle.tui_cells.specs.Cell.{IsSymbol, Look};

    ghost Value = { Look };

    ghost view = { λ c. content_look c.content };

    ghost invariant = { λ c. IsSymbol (content_look c.content).symbol };
}

impl Cell {
    /// Returns a blank cell: one space, both colours Reset, no modifier.
    #[inline]
    pub fn new(alloc: Global) -> Cell
        ensures { result ≡ blank }
    {
        Cell {
            alloc,
            content: Content::Short(Attributes::unstyled(), blank_symbol()),
        }
    }

    /// The symbol, which is never empty.
    #[inline]
    pub fn symbol(&self) -> &str
        ensures is { result.now ≡ self.now.symbol }
        ensures some { IsSymbol result.now }
    {
        self.content.symbol()
    }

    /// Returns the colours and the modifiers together.
    #[inline]
    pub fn attributes(&self) -> Attributes
        ensures { look_of self.now.symbol result ≡ self.now }
    {
        self.content.attributes()
    }

    /// Whether another cell shows the same.
    #[inline]
    pub fn is_same(&self, other: &Cell) -> bool
        ensures { IsTrue result ↔ (self.now ≡ other.now) }
    {
        self.content.is_same(&other.content)
    }

    #[inline]
    pub(crate) fn is_unstyled(&self) -> bool
        ensures { IsTrue result ↔ IsUnstyled self.now }
    {
        self.content.attributes().is_unstyled()
    }

    /// The foreground.
    pub fn fg(&self) -> Color
        ensures { result ≡ self.now.fg }
    {
        self.content.attributes().fg
    }

    /// The background.
    pub fn bg(&self) -> Color
        ensures { result ≡ self.now.bg }
    {
        self.content.attributes().bg
    }

    /// The modifiers.
    pub fn modifier(&self) -> Modifier
        ensures { result.bits ≡ self.now.modifier }
    {
        self.content.attributes().modifier
    }

    /// Sets the symbol and nothing else. An empty string sets one space. Fails with `NoMemory` if memory runs out; the
    /// cell is then unchanged. A symbol of at most 8 bytes does not allocate.
    #[inline]
    pub fn set_symbol(&mut self, symbol: &str) -> Mem<()>
        ensures ok { OnOk result (self.new ≡ edited (write symbol.now) self.old) }
        ensures err { OnErr result (self.new ≡ self.old) }
        ensures allocation_free { IsAllocationFree symbol.now → IsOk result }
    {
        self.content.set_symbol(self.alloc, symbol)
    }

    /// Joins the cell's symbol with a new one, as `MergeStrategy::merge` does. An empty string counts as one space.
    /// Fails with `NoMemory` if memory runs out; the cell is then unchanged. A new symbol of at most 8 bytes does not
    /// allocate.
    pub fn merge_symbol(&mut self, symbol: &str, strategy: MergeStrategy) -> Mem<()>
        ensures ok { OnOk result (self.new ≡ edited (merge strategy symbol.now) self.old) }
        ensures err { OnErr result (self.new ≡ self.old) }
        ensures allocation_free { IsAllocationFree symbol.now → IsOk result }
    {
        let merged = strategy.merge(self.content.symbol(), symbol);
        self.content.set_symbol(self.alloc, merged)
    }

    /// Adds DIM and halves the background.
    #[inline]
    pub(crate) fn dim(&mut self)
        ensures { self.new ≡ edited dim self.old }
    {
        self.content.dim();
    }

    /// Sets the colours that the style gives, adds its added modifiers and then removes its removed ones.
    #[inline]
    pub fn set_style(&mut self, style: Style)
        ensures { self.new ≡ edited (set_style style) self.old }
    {
        self.content.set_style(style);
    }

    /// Makes the cell blank.
    #[inline]
    pub fn reset(&mut self)
        ensures { self.new ≡ edited wipe self.old }
    {
        self.content = Content::Short(Attributes::unstyled(), blank_symbol());
    }

    #[inline]
    pub(crate) fn set_short(&mut self, symbol: ArrayString<SHORT>)
        requires { 0 < length symbol.bytes }
        ensures { self.new ≡ edited (write symbol.bytes) self.old }
    {
        self.content.set_short(symbol);
    }

    /// Sets a symbol that is shared with other cells.
    pub(crate) fn set_shared(&mut self, symbol: &Rc<String>) -> Mem<()>
        requires { 0 < length (string_bytes symbol.now.value) }
        ensures ok { OnOk result (self.new ≡ edited (write (string_bytes symbol.now.value)) self.old) }
        ensures err { OnErr result (self.new ≡ self.old) }
    {
        self.content = Content::Long(self.content.attributes(), symbol.clone()?);
        Ok(())
    }

    /// Makes the cell show what another cell shows. Fails with `NoMemory` if memory runs out; the cell is then
    /// unchanged. A symbol of at most 8 bytes does not allocate.
    #[inline]
    pub fn copy_from(&mut self, other: &Cell) -> Mem<()>
        ensures ok { OnOk result (self.new ≡ other.now) }
        ensures err { OnErr result (self.new ≡ self.old) }
        ensures allocation_free { IsAllocationFree other.now.symbol → IsOk result }
    {
        self.content.copy_from(&other.content)
    }

    /// Returns another cell that shows the same.
    pub(crate) fn try_clone(&self) -> Mem<Cell>
        ensures { IfOk result (λ cell. cell ≡ self.now) }
    {
        Ok(Cell {
            alloc: self.alloc,
            content: self.content.try_clone()?,
        })
    }
}
