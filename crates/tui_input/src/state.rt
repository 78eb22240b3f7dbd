//! The state of a text input.

ghost use Rattle.std.specs.Prelude.{◌≤◌, ◌≡◌, ◌==◌, ◌++◌, ◌||◌, [], chars, false, length, nat_lt, true, IfOk, OnOk, OnErr};
ghost use Rattle.std.specs.Str.{IsCharBoundary, IsUtf8};
ghost use Rattle.tui_clusters.specs.Shown.{has_control};
ghost use Rattle.tui_input.specs.State.{
  SplitsAtCursor,
  cut_out,
  cut_to_end,
  cut_to_start,
  cut_word,
  empty_input,
  ends_joined,
  has_columns,
  has_room,
  inserted,
  moved,
  accepts,
  text_of,
  to_end,
  to_left,
  to_right,
  to_start,
  typed,
  typed_all,
  without_after,
  without_before,
};
ghost use Rattle.tui_input.specs.Scroll.{with_first};
ghost use Rattle.tui_input.specs.Taking.{with_pasting};

use crate::ends::{split_first, split_last, word_start};
use std::alloc::Global;
use std::marker::Model;
use tui_cells::Mem;
use unicode_width::UnicodeWidthChar;

/// The state of a single-line text input: the text, the cursor and the first grapheme that is shown.
///
/// The text before the cursor is split into graphemes by itself. A typed character thus stays left of the cursor, even
/// if it would combine with the text after it. The text has at most `most` characters, and no control character. Only
/// inserting a character allocates.
pub struct InputState {
    text: String,
    /// The byte of the text at which the cursor is.
    at: usize,
    most: usize,
    first: usize,
    pasting: bool,
}

// Written out, so that dependent crates need no proofs about the fields to drop the value.
impl Drop for InputState {
    fn drop(self) {
        let InputState {
            text,
            at,
            most,
            first,
            pasting,
        } = self;
    }
}

impl Model for InputState {
    ghost use Rattle.std.specs.String.{string_bytes};
    ghost use Rattle.tui_input.specs.State.{TypedText, IsInput, input_at};

    ghost Value = { TypedText };

    ghost view = { λ s. input_at (string_bytes s.text) s.at s.most s.first s.pasting };

    ghost invariant = { λ s. IsInput (string_bytes s.text) s.at s.most };
}

impl InputState {
    /// Creates a state with an empty text, which may grow to `most` characters. Does not allocate.
    pub fn new(alloc: Global, most: usize) -> InputState
        ensures { result ≡ empty_input most }
    {
        InputState {
            text: String::new(alloc),
            at: 0,
            most,
            first: 0,
            pasting: false,
        }
    }

    /// Creates a state by typing a text into an empty one. Characters that aren't accepted are left out, and the cursor
    /// is after the others.
    pub fn with_text(alloc: Global, most: usize, text: &str) -> Mem<InputState>
        ensures { IfOk result (λ state. state ≡ typed_all (empty_input most) (chars text.now)) }
    {
        let mut state = InputState::new(alloc, most);
        for c in text.chars() {
            state.insert(c)?;
        }
        Ok(state)
    }

    /// Returns the text. It has no control character, and at most `most` characters.
    pub fn text(&self) -> &str
        ensures text { result.now ≡ text_of self.now }
        ensures plain { has_control (text_of self.now) ≡ false }
        ensures few { length (chars (text_of self.now)) ≤ self.now.most }
    {
        self.text.as_str()
    }

    /// Returns whether the text is empty.
    pub fn is_empty(&self) -> bool
        ensures { result ≡ (length (text_of self.now) == 0) }
    {
        self.text().len() == 0
    }

    /// Returns the text left of the cursor, and the text right of it. If the whole text has a grapheme boundary at the
    /// cursor (UAX #29), its graphemes are those of both sides.
    pub fn sides(&self) -> (&str, &str)
        ensures before { result.0.now ≡ self.now.before }
        ensures after { result.1.now ≡ self.now.after }
        ensures before_utf8 { IsUtf8 result.0.now }
        ensures plain { has_control (text_of self.now) ≡ false }
        ensures utf8 { IsUtf8 result.1.now }
        ensures whole { SplitsAtCursor self.now }
    {
        self.text.as_str().split_at(self.at)
    }

    fn move_to(&mut self, at: usize)
        requires { IsCharBoundary (text_of self.old) at }
        ensures { self.new ≡ moved self.old at }
    {
        self.at = at;
    }

    /// Moves the cursor before the grapheme left of it.
    pub fn left(&mut self)
        ensures { self.new ≡ to_left self.old }
    {
        let (before, _) = self.sides();
        let (rest, _) = split_last(before);
        let at = rest.len();
        self.move_to(at);
    }

    /// Moves the cursor after the grapheme right of it.
    pub fn right(&mut self)
        ensures { self.new ≡ to_right self.old }
    {
        let (before, after) = self.sides();
        let (first, _) = split_first(after);
        let at = before.len() + first.len();
        self.move_to(at);
    }

    /// Moves the cursor to the start of the text.
    pub fn home(&mut self)
        ensures { self.new ≡ to_start self.old }
    {
        self.at = 0;
    }

    /// Moves the cursor to the end of the text.
    pub fn end(&mut self)
        ensures { self.new ≡ to_end self.old }
    {
        let at = self.text.len();
        self.move_to(at);
    }

    fn has_room(&self, c: char) -> bool
        ensures { result ≡ has_room self.now c }
    {
        let count = self.count();
        !c.is_control() && count < self.most
    }

    fn count(&self) -> usize
        ensures { result ≡ length (chars (text_of self.now)) }
    {
        self.text().chars().count()
    }

    /// Inserts a character before the cursor, and returns whether it was accepted. Three kinds are not: control
    /// characters, characters beyond the limit `most`, and characters without columns that don't join the grapheme
    /// before the cursor. On `NoMemory` nothing has changed.
    pub fn insert(&mut self, c: char) -> Mem<bool>
        ensures ok { OnOk result (self.new ≡ typed self.old c) }
        ensures accepted { IfOk result (λ accepted. accepted ≡ accepts self.old c) }
        ensures err { OnErr result (self.new ≡ self.old) }
    {
        if !self.has_room(c) {
            return Ok(false);
        }
        let (before, _) = self.sides();
        let from = before.len();
        self.insert_char(c)?;
        if self.may_stay(c) {
            return Ok(true);
        }
        let (before, _) = self.sides();
        let to = before.len();
        self.cut(from, to);
        Ok(false)
    }

    fn insert_char(&mut self, c: char) -> Mem<()>
        requires { has_room self.old c ≡ true }
        ensures ok { OnOk result (self.new ≡ inserted self.old c) }
        ensures err { OnErr result (self.new ≡ self.old) }
    {
        self.text.insert(self.at, c)?;
        self.at += c.len_utf8();
        Ok(())
    }

    /// Returns whether the character just inserted before the cursor may stay: it has columns, or joined a grapheme.
    fn may_stay(&self, c: char) -> bool
        ensures { result ≡ (has_columns c || ends_joined self.now.before c) }
    {
        let (before, _) = self.sides();
        let (_, last) = split_last(before);
        has_columns(c) || last.len() > c.len_utf8()
    }

    /// Removes the bytes from `from` to `to`. Does not allocate.
    fn cut(&mut self, from: usize, to: usize)
        requires order { from ≤ to }
        requires start { IsCharBoundary (text_of self.old) from }
        requires end { IsCharBoundary (text_of self.old) to }
        ensures { self.new ≡ cut_out self.old from to }
    {
        match self.text.replace_range(from..to, "") {
            Ok(()) => self.at = from,
            // Nothing replaces the removed bytes, so no allocation is needed.
            Err(_) => unreachable!(),
        }
    }

    /// Deletes the grapheme left of the cursor.
    pub fn backspace(&mut self)
        ensures { self.new ≡ without_before self.old }
    {
        let (before, _) = self.sides();
        let (rest, _) = split_last(before);
        let from = rest.len();
        let to = before.len();
        self.cut(from, to);
    }

    /// Deletes the grapheme right of the cursor.
    pub fn delete(&mut self)
        ensures { self.new ≡ without_after self.old }
    {
        let (before, after) = self.sides();
        let (first, _) = split_first(after);
        let from = before.len();
        let to = from + first.len();
        self.cut(from, to);
    }

    /// Deletes the text left of the cursor.
    pub fn delete_to_start(&mut self)
        ensures { self.new ≡ cut_to_start self.old }
    {
        let (before, _) = self.sides();
        let to = before.len();
        self.cut(0, to);
    }

    /// Deletes the text right of the cursor.
    pub fn delete_to_end(&mut self)
        ensures { self.new ≡ cut_to_end self.old }
    {
        self.text.truncate(self.at);
    }

    /// Deletes the white space left of the cursor and the word before it.
    pub fn delete_word(&mut self)
        ensures { self.new ≡ cut_word self.old }
    {
        let (before, _) = self.sides();
        let from = word_start(before);
        let to = before.len();
        self.cut(from, to);
    }

    /// Returns the index of the first grapheme, among those left of the cursor, that the last drawing showed.
    pub fn first(&self) -> usize
        ensures { result ≡ self.now.first }
    {
        self.first
    }

    pub(crate) fn set_first(&mut self, first: usize)
        ensures { self.new ≡ with_first self.old first }
    {
        self.first = first;
    }

    pub(crate) fn is_pasting(&self) -> bool
        ensures { result ≡ self.now.pasting }
    {
        self.pasting
    }

    pub(crate) fn set_pasting(&mut self, pasting: bool)
        ensures { self.new ≡ with_pasting self.old pasting }
    {
        self.pasting = pasting;
    }
}

fn has_columns(c: char) -> bool
    ensures { result ≡ has_columns c }
{
    c.width().unwrap_or(0) > 0
}
