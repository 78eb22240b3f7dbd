//! Items of a list.

ghost use Rattle.std.specs.Prelude.{◌≡◌, IfOk, true};
ghost use Rattle.tui_cells.specs.Style.{no_style};
ghost use Rattle.tui_lists.specs.ListItem.{item_height, list_item_data};
ghost use Rattle.tui_text.specs.Text.{text_data};
ghost use Rattle.tui_clusters.specs.Width.{saturated};
ghost use Rattle.tui_text.specs.Width.{text_width};

use tui_cells::{Mem, Style, Styled};
use tui_text::Text;

/// An item of a list: a text, with a style under the text's own. It takes one row per line of the text.
#[derive(Debug, PartialEq, Eq, Hash)]
pub struct ListItem<'a> {
    pub(crate) content: Text<'a>,
    pub(crate) style: Style,
}

// Written out, so that dependent crates have nothing to prove about its fields when they drop it.
impl<'a> Drop for ListItem<'a> {
    fn drop(self) {
        let ListItem { content, style } = self;
    }
}

impl<'a> ListItem<'a> {
    /// Creates an item without a style of its own.
    pub fn new(content: Text<'a>) -> ListItem<'a>
        ensures { list_item_data result ≡ record { content = text_data content.entry; style = no_style } }
    {
        ListItem {
            content,
            style: Style::new(),
        }
    }

    /// Sets the style under the text's style.
    pub fn style(mut self, style: Style) -> ListItem<'a>
        ensures { list_item_data result ≡ record (list_item_data self.entry) { style = style } }
    {
        self.style = style;
        self
    }

    /// Returns the number of its lines, which is the number of its rows.
    pub fn height(&self) -> usize
        ensures { result ≡ item_height (list_item_data self.now) }
    {
        self.content.height()
    }

    /// Returns the width of its widest line in columns, or 0 if it has no lines.
    pub fn width(&self) -> usize
        ensures { result ≡ saturated (text_width (list_item_data self.now).content) }
    {
        self.content.width()
    }

    /// Returns an equal item. Fails with `NoMemory` if there is no memory for the text.
    pub fn clone(&self) -> Mem<ListItem<'a>>
        ensures is { IfOk result (λ item. list_item_data item ≡ list_item_data self.now) }
        ensures equal { IfOk result (λ item. ⟦<ListItem<'a> as PartialEq>⟧.eq item self.now ≡ true) }
    {
        Ok(ListItem {
            content: self.content.clone()?,
            style: self.style,
        })
    }
}

impl<'a> Styled for ListItem<'a> {
    ghost style_of = { λ item. item.style };

    ghost with_style = { λ item style. record item { style = style } };

    fn style(&self) -> Style {
        self.style
    }

    fn set_style(mut self, style: Style) -> ListItem<'a> {
        self.style = style;
        self
    }
}
