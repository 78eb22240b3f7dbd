//! The folders of a row.

ghost use Rattle.std.specs.Bool.{⊤};

use crate::members::{list, member, text_in};
use serde_json::Value;
use std::alloc::Global;
use tui_cells::Mem;
use tui_files_lib::{EntryKind, Folders, Listing, Name};
use tui_files_run::FolderPaths;

/// The folders and files of a row. Its member `folders` has the names in each folder, by the folder's absolute path.
#[derive(Clone, Copy)]
pub(crate) struct RowFolders<'v> {
    pub(crate) alloc: Global,
    pub(crate) row: &'v Value,
}

impl<'v> RowFolders<'v> {
    /// Returns the names in a folder.
    fn names(self, folder: &str) -> Option<&'v [Value]> {
        let folders = member(self.row, "folders")?;
        member(folders, folder)?;
        list(folders, folder)
    }
}

impl<'v> Folders for RowFolders<'v> {
    // No statement about what a folder holds; the rows compare what is written.
    ghost lists = { λ _ _ _. ⊤ };

    fn list(&self, alloc: Global, folder: &str) -> Mem<Option<Listing>> {
        let Some(texts) = self.names(folder) else {
            return Ok(None);
        };
        let mut names = Vec::new(alloc);
        for text in texts {
            names.push(name_of(alloc, text.as_str().unwrap_or(""))?)?;
        }
        Ok(Some(Listing {
            names,
            omitted: 0,
            not_utf8: 0,
        }))
    }

    fn head(&self, alloc: Global, file: &str) -> Mem<Option<Vec<u8>>> {
        match text_in(self.row, "files", file) {
            Some(text) => Ok(Some(Vec::from_slice(alloc, text.as_bytes())?)),
            None => Ok(None),
        }
    }
}

impl<'v> FolderPaths for RowFolders<'v> {
    // No statement about the paths either.
    ghost resolves = { λ _ _ _. ⊤ };

    ghost is_at_folder = { λ _ _ _. ⊤ };

    fn resolve(&self, path: &str) -> Mem<Option<String>> {
        match text_in(self.row, "paths", path) {
            Some(found) => Ok(Some(String::from_str(self.alloc, found)?)),
            None if self.names(path).is_some() => Ok(Some(String::from_str(self.alloc, path)?)),
            None => Ok(None),
        }
    }

    fn is_folder(&self, path: &str) -> Mem<bool> {
        Ok(self.names(path).is_some())
    }
}

/// Returns a name, which is a folder's if a slash follows it.
fn name_of(alloc: Global, text: &str) -> Mem<Name> {
    let (kind, text) = match text.strip_suffix('/') {
        Some(name) => (EntryKind::Folder, name),
        None => (EntryKind::File, text),
    };
    Ok(Name {
        kind,
        text: String::from_str(alloc, text)?,
    })
}
