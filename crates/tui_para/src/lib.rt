//! Paragraphs, and the logo.
#![tactic(auto)]

pub mod composer;
mod counting;
mod ends;
mod laws;
pub mod logo;
mod painting;
pub mod paragraph;
mod plain;
pub mod size;
pub mod text_lines;
mod truncating;
pub mod truncator;
pub mod wrap;
pub mod wrapper;
mod wrapping;

pub use composer::{LineComposer, WrappedLine};
pub use counting::counter::Counter;
pub use counting::line_end::LineEnd;
pub use counting::wrapped_count;
pub use laws::{
    text_truncates_exactly_once, text_truncator_yields_one, text_wrapper_yields_one,
    text_wraps_exactly_once, truncates_exactly_once, truncator_yields_some,
    truncator_yields_what_is_known, wrapper_yields_some, wrapper_yields_what_is_known,
    wrapping_goes_on, wrapping_leaves_out_blanks, wraps_exactly_once,
};
pub use logo::RatatuiLogo;
pub use paragraph::Paragraph;
pub use size::Size;
pub use text_lines::TextLines;
pub use truncator::LineTruncator;
pub use wrap::Wrap;
pub use wrapper::WordWrapper;
pub use wrapping::mark::Mark;
