//! The control characters that are not written as byte literals.

/// BEL. It ends a reply.
pub(crate) const BELL: u8 = 0x07;

/// BS. It is Ctrl with h.
pub(crate) const BACKSPACE: u8 = 0x08;

/// ESC.
pub(crate) const ESCAPE: u8 = 0x1b;

/// DEL. Terminals send it for the key Backspace.
pub(crate) const DELETE: u8 = 0x7f;
