//! What the program asks of the file system, beside the names in folders.

ghost use Rattle.std.specs.Prelude.{Bool, IfOk, List, Option, option_map, string_bytes, ℕ};

use tui_cells::Mem;

/// The paths of a file system.
pub trait FolderPaths {
    // What the absolute path of a path is, as far as that is known; None if no folder that can be read is there.
    ghost resolves: { Self → List ℕ → Option (List ℕ) → Type 0 };

    // Whether a path is that of a folder, as far as that is known.
    ghost is_at_folder: { Self → List ℕ → Bool → Type 0 };

    /// Returns the absolute path without links of a path; None if no folder that can be read is there, and then a line on
    /// standard error says why.
    fn resolve(&self, path: &str) -> Mem<Option<String>>
        ensures { IfOk result (λ found. resolves self.now path.now (option_map string_bytes found)) };

    /// Whether a path is that of a folder; a link to one counts.
    fn is_folder(&self, path: &str) -> Mem<bool>
        ensures { IfOk result (is_at_folder self.now path.now) };
}
