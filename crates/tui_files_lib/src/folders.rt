//! What a browser needs from the file system.

ghost use Rattle.std.specs.Prelude.{ℕ, IfOk, List, Option};

use std::alloc::Global;
use tui_cells::Mem;

/// The most names of a folder that a browser lists.
pub const MOST_NAMES: usize = 10_000;

/// The most bytes of a file that it shows.
pub const HEAD_BYTES: usize = 65_536;

/// What a name leads to. Folders are sorted before files.
#[derive(Clone, Copy, PartialEq, Eq, PartialOrd, Ord)]
pub enum EntryKind {
    Folder,
    File,
}

/// A name in a folder.
#[derive(PartialEq, Eq, PartialOrd, Ord, Drop)]
pub struct Name {
    pub kind: EntryKind,
    pub text: String,
}

/// The names of a folder, in any order.
#[derive(Drop)]
pub struct Listing {
    /// At most `MOST_NAMES`.
    pub names: Vec<Name>,
    /// How many more names there are.
    pub omitted: usize,
    /// How many names are not UTF-8.
    pub not_utf8: usize,
}

/// Folders and their files.
pub trait Folders {
    ghost use Rattle.tui_files_lib.specs.declared.folders.Listing.{Listing};

    // Which listings a folder may be read as, by its path; None if it can't be read.
    ghost lists: { Self → List ℕ → Option Listing → Type 0 };

    /// Returns the names in a folder; None if it can't be read.
    fn list(&self, alloc: Global, folder: &str) -> Mem<Option<Listing>>
        ensures { IfOk result (lists self.now folder.now) };

    /// Returns the first bytes of a file, at most `HEAD_BYTES`; None if it can't be read.
    fn head(&self, alloc: Global, file: &str) -> Mem<Option<Vec<u8>>>;
}
