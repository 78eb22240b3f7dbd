//! Painting of lines.

mod bytes;
mod line;
pub(crate) mod rows;
