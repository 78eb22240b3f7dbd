//! Truncation of a text line.

pub(crate) mod refilling;
pub(crate) mod truncation;
