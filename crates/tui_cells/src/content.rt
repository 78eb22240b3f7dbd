//! How a cell stores what it shows.

ghost use Rattle.std.specs.Prelude.{◌≡◌, ◌↔◌, ◌<◌, [], ◌∷◌, IsOk, IsTrue, IfOk, IfSome, None, OnErr, OnOk, length, string_bytes};
ghost use Rattle.std.specs.Char.{encode_utf8};
ghost use Rattle.tui_cells.specs.Attributes.{content_look, look_of};
ghost use Rattle.tui_cells.specs.Cell.{IsAllocationFree, dim, restyled, edited, write, space, symbol_of};

use crate::attributes::Attributes;
use crate::memory::Mem;
use crate::style::Style;
use arrayvec::ArrayString;
use std::alloc::Global;
use std::rc::Rc;

/// The greatest number of bytes of a symbol that is stored in its cell.
pub(crate) const SHORT: usize = 8;

/// Attributes and a symbol. A symbol of at most 8 bytes is stored in place, a longer one in a string that cells share.
#[derive(Drop)]
pub(crate) enum Content {
    Short(Attributes, ArrayString<SHORT>),
    Long(Attributes, Rc<String>),
}

/// Returns the string, or one space if it is empty.
#[inline]
pub(crate) fn shown(symbol: &str) -> &str
    ensures { result.now ≡ symbol_of symbol.now }
{
    if symbol.is_empty() { " " } else { symbol }
}

pub(crate) fn blank_symbol() -> ArrayString<SHORT>
    ensures { result.bytes ≡ space }
{
    let mut symbol = ArrayString::new();
    symbol.push(' ');
    symbol
}

#[tactic(auto, using(crate::proofs::Showing::char_bytes))]
pub(crate) fn char_symbol(c: char) -> ArrayString<SHORT>
    ensures is { result.bytes ≡ encode_utf8 c }
    ensures some { 0 < length result.bytes }
{
    let mut symbol = ArrayString::new();
    symbol.push(c);
    symbol
}

/// Returns a symbol of one ASCII character.
#[inline]
pub(crate) fn byte_symbol(byte: u8) -> ArrayString<SHORT>
    requires { byte < 128 }
    ensures { result.bytes ≡ byte ∷ [] }
{
    let mut symbol = ArrayString::new();
    // The remainder equals the byte. It shows the compiler that the character has one byte.
    symbol.push((byte % 128) as char);
    symbol
}

/// Returns the string stored in place, if it has at most 8 bytes. A single byte is stored without a copy of memory.
#[inline]
pub(crate) fn short_symbol(text: &str) -> Option<ArrayString<SHORT>>
    ensures some { IfSome result (λ symbol. symbol.bytes ≡ text.now) }
    ensures none { result ≡ None → 8 < length text.now }
{
    if let [byte] = text.as_bytes()
        && *byte < 128
    {
        return Some(byte_symbol(*byte));
    }
    match ArrayString::from(text) {
        Ok(short) => Some(short),
        Err(_) => None,
    }
}

// Returns the content with the symbol of another cell. A long symbol is shared.
#[inline(never)]
fn shared(attributes: Attributes, symbol: &Rc<String>) -> Mem<Content>
    ensures same { IfOk result (λ c. content_look c ≡ look_of (string_bytes symbol.now.value) attributes) }
    ensures allocation_free { IsAllocationFree (string_bytes symbol.now.value) → IsOk result }
{
    match short_symbol(symbol.as_str()) {
        Some(short) => Ok(Content::Short(attributes, short)),
        None => Ok(Content::Long(attributes, symbol.clone()?)),
    }
}

// Compares the lengths first. Most symbols have one byte.
#[inline]
fn is_same_text(one: &str, other: &str) -> bool
    ensures { IsTrue result ↔ (one.now ≡ other.now) }
{
    one.len() == other.len() && are_equal(one, other)
}

// Comparing two strings is a call, which a single byte doesn't need.
#[inline]
fn are_equal(one: &str, other: &str) -> bool
    ensures { IsTrue result ↔ (one.now ≡ other.now) }
{
    match (one.as_bytes(), other.as_bytes()) {
        ([a], [b]) => a == b,
        _ => one == other,
    }
}

impl Content {
    /// Sets the symbol. An empty string sets one space. Fails with `NoMemory` if memory runs out; the content is then
    /// unchanged.
    #[inline]
    pub(crate) fn set_symbol(&mut self, alloc: Global, text: &str) -> Mem<()>
        ensures ok { OnOk result (content_look self.new ≡ edited (write text.now) (content_look self.old)) }
        ensures err { OnErr result (self.new ≡ self.old) }
        ensures allocation_free { IsAllocationFree text.now → IsOk result }
    {
        let text = shown(text);
        match short_symbol(text) {
            Some(short) => {
                self.set_short(short);
                Ok(())
            }
            None => self.set_long(alloc, text),
        }
    }

    /// Sets a symbol of at most 8 bytes. If the old one is short too, it is overwritten in place.
    #[inline]
    pub(crate) fn set_short(&mut self, symbol: ArrayString<SHORT>)
        ensures { content_look self.new ≡ record (content_look self.old) { symbol = symbol.bytes } }
    {
        match self {
            Content::Short(_, place) => *place = symbol,
            Content::Long(attributes, _) => *self = Content::Short(*attributes, symbol),
        }
    }

    #[inline(never)]
    fn set_long(&mut self, alloc: Global, text: &str) -> Mem<()>
        ensures ok { OnOk result (content_look self.new ≡ record (content_look self.old) { symbol = text.now }) }
        ensures err { OnErr result (self.new ≡ self.old) }
    {
        let text = String::from_str(alloc, text)?;
        *self = Content::Long(self.attributes(), Rc::new(alloc, text)?);
        Ok(())
    }

    #[inline]
    pub(crate) fn attributes(&self) -> Attributes
        ensures { look_of (content_look self.now).symbol result ≡ content_look self.now }
    {
        match self {
            Content::Short(attributes, _) => *attributes,
            Content::Long(attributes, _) => *attributes,
        }
    }

    #[inline]
    pub(crate) fn symbol(&self) -> &str
        ensures { result.now ≡ (content_look self.now).symbol }
    {
        match self {
            Content::Short(_, symbol) => symbol.as_str(),
            Content::Long(_, symbol) => symbol.as_str(),
        }
    }

    #[inline]
    pub(crate) fn set_style(&mut self, style: Style)
        ensures { content_look self.new ≡ restyled style (content_look self.old) }
    {
        match self {
            Content::Short(attributes, _) => attributes.set_style(style),
            Content::Long(attributes, _) => attributes.set_style(style),
        }
    }

    /// Whether both show the same. Two short ones are compared in place.
    #[inline]
    pub(crate) fn is_same(&self, other: &Content) -> bool
        ensures { IsTrue result ↔ (content_look self.now ≡ content_look other.now) }
    {
        match (self, other) {
            (Content::Short(a, one), Content::Short(b, two)) => {
                *a == *b && is_same_text(one.as_str(), two.as_str())
            }
            _ => self.is_same_look(other),
        }
    }

    fn is_same_look(&self, other: &Content) -> bool
        ensures { IsTrue result ↔ (content_look self.now ≡ content_look other.now) }
    {
        self.attributes() == other.attributes() && is_same_text(self.symbol(), other.symbol())
    }

    pub(crate) fn dim(&mut self)
        ensures { content_look self.new ≡ edited dim (content_look self.old) }
    {
        match self {
            Content::Short(attributes, _) => attributes.dim(),
            Content::Long(attributes, _) => attributes.dim(),
        }
    }

    /// Makes the content show what another content shows, in place if both symbols are short. Fails with `NoMemory` if
    /// memory runs out; the content is then unchanged.
    #[inline]
    pub(crate) fn copy_from(&mut self, other: &Content) -> Mem<()>
        ensures ok { OnOk result (content_look self.new ≡ content_look other.now) }
        ensures err { OnErr result (self.new ≡ self.old) }
        ensures allocation_free { IsAllocationFree (content_look other.now).symbol → IsOk result }
    {
        match (self, other) {
            (Content::Short(attributes, place), Content::Short(others, symbol)) => {
                *attributes = *others;
                *place = *symbol;
                Ok(())
            }
            (content, _) => {
                *content = other.try_clone()?;
                Ok(())
            }
        }
    }

    /// Returns the same content. A long symbol is shared. A symbol of at most 8 bytes does not allocate.
    #[inline]
    pub(crate) fn try_clone(&self) -> Mem<Content>
        ensures same { IfOk result (λ c. content_look c ≡ content_look self.now) }
        ensures allocation_free { IsAllocationFree (content_look self.now).symbol → IsOk result }
    {
        match self {
            Content::Short(attributes, symbol) => Ok(Content::Short(*attributes, *symbol)),
            Content::Long(attributes, symbol) => shared(*attributes, symbol),
        }
    }
}
