//! The folders of the file system.

ghost use Rattle.std.specs.Bool.{⊤};

use crate::NAME;
use std::alloc::Global;
use std::fs::{DirEntry, File};
use std::io::{ErrorKind, Read};
use std::{fs, io};
use tui_cells::Mem;
use tui_files_lib::{EntryKind, Folders, HEAD_BYTES, Listing, MOST_NAMES, Name};
use tui_files_run::FolderPaths;
use tui_system::{or_out_of_memory, report};

/// The folders of the file system that `rt` gives access to.
#[derive(Clone, Copy)]
pub(crate) struct SystemFolders<'r> {
    pub(crate) rt: &'r HostRuntime,
}

impl<'r> Folders for SystemFolders<'r> {
    // No statement about what a folder of the file system holds.
    ghost lists = { λ _ _ _. ⊤ };

    fn list(&self, alloc: Global, folder: &str) -> Mem<Option<Listing>> {
        let mut listing = Listing {
            names: Vec::new(alloc),
            omitted: 0,
            not_utf8: 0,
        };
        let Ok(entries) = or_out_of_memory(fs::read_dir(self.rt, folder))? else {
            return Ok(None);
        };
        for entry in entries {
            match or_out_of_memory(entry)? {
                Ok(entry) if listing.names.len() < MOST_NAMES => {
                    let name = self.name_of(alloc, &entry)?;
                    listing.names.push(name)?;
                }
                Ok(_) => listing.omitted = listing.omitted.saturating_add(1),
                Err(error) if error.kind() == ErrorKind::InvalidFilename => {
                    listing.not_utf8 = listing.not_utf8.saturating_add(1);
                }
                Err(_) => return Ok(None),
            }
        }
        Ok(Some(listing))
    }

    fn head(&self, alloc: Global, file: &str) -> Mem<Option<Vec<u8>>> {
        match or_out_of_memory(self.read_head(alloc, file))? {
            Ok(head) => Ok(head),
            Err(_) => Ok(None),
        }
    }
}

impl<'r> FolderPaths for SystemFolders<'r> {
    // No statement about the paths of the file system.
    ghost resolves = { λ _ _ _. ⊤ };

    ghost is_at_folder = { λ _ _ _. ⊤ };

    fn resolve(&self, path: &str) -> Mem<Option<String>> {
        match or_out_of_memory(self.readable(path))? {
            Ok(found) => Ok(Some(found)),
            Err(error) => {
                report(self.rt, NAME, path, &error)?;
                Ok(None)
            }
        }
    }

    fn is_folder(&self, path: &str) -> Mem<bool> {
        match or_out_of_memory(fs::metadata(self.rt, path))? {
            Ok(metadata) => Ok(metadata.is_dir()),
            Err(_) => Ok(false),
        }
    }
}

impl<'r> SystemFolders<'r> {
    /// Returns the absolute path without links of a folder that can be read.
    fn readable(&self, path: &str) -> io::Result<String> {
        let _names = fs::read_dir(self.rt, path)?;
        Ok(fs::canonicalize(self.rt, path)?.into_string())
    }

    /// Returns a name, with what it leads to. A link to a folder counts as a folder.
    fn name_of(&self, alloc: Global, entry: &DirEntry<HostRuntime>) -> Mem<Name> {
        let kind = match or_out_of_memory(fs::metadata(self.rt, entry.path()))? {
            Ok(metadata) if metadata.is_dir() => EntryKind::Folder,
            _ => EntryKind::File,
        };
        let text = String::from_str(alloc, entry.file_name())?;
        Ok(Name { kind, text })
    }

    /// Returns the first bytes of a file; None if it is not a regular file, since reading a pipe might block.
    fn read_head(&self, alloc: Global, file: &str) -> io::Result<Option<Vec<u8>>> {
        if !fs::metadata(self.rt, file)?.is_file() {
            return Ok(None);
        }
        let mut bytes = Vec::new(alloc);
        File::open(self.rt, file)?
            .take(HEAD_BYTES as u64)
            .read_to_end(&mut bytes)?;
        Ok(Some(bytes))
    }
}
