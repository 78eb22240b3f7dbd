//! Grapheme clusters of texts, their widths in columns, and which of them are blanks.
#![tactic(auto)]

pub mod blank;
pub mod clusters;
pub mod first;
pub mod laws;
mod plain;
pub mod printable;
pub mod width;

pub use blank::{has_control, is_blank};
pub use clusters::{Clusters, split_run};
pub use first::first_cluster;
pub use laws::cluster_suffix_law;
pub use plain::{is_letter, is_plain_char, is_printable_first};
pub use printable::{is_printable, printable_byte};
pub use width::{cell_width, has_column, text_width};
