//! What a scrollbar shows.

ghost use Rattle.std.specs.Prelude.{◌≡◌, ◌+◌, ◌-◌, min};
ghost use Rattle.tui_lists.specs.ScrollbarState.{scrolled};
ghost use Rattle.tui_clusters.specs.Width.{saturated};

use crate::scrollbar::direction::ScrollDirection;

/// The length of a content, the position that is seen, and how much is visible at once. A drawing leaves the state
/// unchanged.
#[derive(Clone, Copy, Debug, PartialEq, Eq, Hash)]
pub struct ScrollbarState {
    pub(crate) content_length: usize,
    pub(crate) position: usize,
    pub(crate) viewport_content_length: usize,
}

impl Default for ScrollbarState {
    /// No content, so that no bar is drawn.
    fn default() -> ScrollbarState
        ensures { result ≡ record { content_length = 0; position = 0; viewport_content_length = 0 } }
    {
        ScrollbarState::new(0)
    }
}

impl ScrollbarState {
    /// Creates the state of a content of this length at position 0. The length of the viewport is 0, which stands for
    /// the length of the bar.
    pub fn new(content_length: usize) -> ScrollbarState
        ensures { result ≡ record { content_length = content_length; position = 0; viewport_content_length = 0 } }
    {
        ScrollbarState {
            content_length,
            position: 0,
            viewport_content_length: 0,
        }
    }

    /// Sets the position, from 0. A position past the last one is drawn as the last.
    pub fn position(self, position: usize) -> ScrollbarState
        ensures { result ≡ record self { position = position } }
    {
        ScrollbarState { position, ..self }
    }

    /// Sets the length of the content.
    pub fn content_length(self, length: usize) -> ScrollbarState
        ensures { result ≡ record self { content_length = length } }
    {
        ScrollbarState {
            content_length: length,
            ..self
        }
    }

    /// Sets how much of the content is visible at once. 0 stands for the length of the bar.
    pub fn viewport_content_length(self, length: usize) -> ScrollbarState
        ensures { result ≡ record self { viewport_content_length = length } }
    {
        ScrollbarState {
            viewport_content_length: length,
            ..self
        }
    }

    /// Moves one position back, at least to the first.
    pub fn prev(&mut self)
        ensures { self.new ≡ record self.old { position = self.old.position - 1 } }
    {
        self.position = self.position.saturating_sub(1);
    }

    /// Moves one position forward, at most to the last.
    pub fn next(&mut self)
        ensures { self.new ≡ record self.old { position = min (saturated (self.old.position + 1)) (self.old.content_length - 1) } }
    {
        let last = self.content_length.saturating_sub(1);
        self.position = self.position.saturating_add(1).min(last);
    }

    /// Moves to the first position.
    pub fn first(&mut self)
        ensures { self.new ≡ record self.old { position = 0 } }
    {
        self.position = 0;
    }

    /// Moves to the last position, which is 0 if there is no content.
    pub fn last(&mut self)
        ensures { self.new ≡ record self.old { position = self.old.content_length - 1 } }
    {
        self.position = self.content_length.saturating_sub(1);
    }

    /// Moves one position forward or back, as `next` or `prev` does.
    pub fn scroll(&mut self, direction: ScrollDirection)
        ensures { self.new ≡ scrolled direction self.old }
    {
        match direction {
            ScrollDirection::Forward => self.next(),
            ScrollDirection::Backward => self.prev(),
        }
    }

    /// Returns the position.
    pub fn get_position(&self) -> usize
        ensures { result ≡ self.now.position }
    {
        self.position
    }
}
