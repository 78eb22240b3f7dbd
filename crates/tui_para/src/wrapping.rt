//! Wrapping of a text line.

mod breaking;
pub(crate) mod hyphenation;
pub mod mark;
mod marked;
pub(crate) mod part;
mod prefix;
pub(crate) mod text_line;
