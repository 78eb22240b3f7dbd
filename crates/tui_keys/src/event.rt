//! The events that a terminal sends.

/// An event from the terminal, or from a program between it and this one, such as `./live`.
#[derive(Clone, Copy, Debug, PartialEq, Eq)]
pub enum Event {
    /// A character that is not an ASCII control character. Within a paste also a newline or a tab.
    Char(char),
    Enter,
    Tab,
    /// Tab with Shift.
    BackTab,
    Backspace,
    Esc,
    Up,
    Down,
    Left,
    Right,
    Home,
    End,
    PageUp,
    PageDown,
    Insert,
    Delete,
    /// A function key, from 1 to 12.
    F(u8),
    /// A lowercase letter with Ctrl. Terminals send Ctrl with h, i, j and m as Backspace, Tab and Enter, so
    /// these are reported.
    Ctrl(char),
    /// A character with Alt.
    Alt(char),
    /// An arrow, Home or End with Shift, Alt or Ctrl.
    With(Modifiers, Motion),
    /// The beginning of pasted text. Up to `PasteEnd` each event is a character or unknown.
    PasteBegin,
    PasteEnd,
    /// The new size of the terminal: columns and rows, each from 1 to 1000.
    Resize(u16, u16),
    /// A second has passed. This is the byte 0, which Ctrl with the space bar sends too.
    Tick,
    /// Anything else.
    Unknown,
}

/// The modifier keys that are held down with a key.
#[derive(Clone, Copy, Debug, PartialEq, Eq)]
pub struct Modifiers {
    pub shift: bool,
    pub alt: bool,
    pub ctrl: bool,
}

/// A key that moves by one step or to an end.
#[derive(Clone, Copy, Debug, PartialEq, Eq)]
pub enum Motion {
    Up,
    Down,
    Left,
    Right,
    Home,
    End,
}
