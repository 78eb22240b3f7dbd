//! A browser of folders as an app, driven by keys and screen sizes.
#![tactic(auto)]

mod actions;
mod browser;
mod drawing;
mod files;
mod folders;
mod laws;
mod naming;
mod rows;

pub use files::FilesApp;
pub use folders::{EntryKind, Folders, HEAD_BYTES, Listing, MOST_NAMES, Name};
pub use laws::{files_law, kind_laws};
