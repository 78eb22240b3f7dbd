//! Folders in memory.

ghost use Rattle.std.specs.Bool.{⊤};

use std::alloc::Global;
use tui_cells::Mem;
use tui_files_lib::{EntryKind, Folders, Listing, Name};

/// A folder by its path: its folders, its files, how many more names it has, and how many that are not UTF-8.
struct MemFolder {
    path: &'static str,
    folders: &'static [&'static str],
    files: &'static [&'static str],
    omitted: usize,
    not_utf8: usize,
}

const FOLDERS: [MemFolder; 3] = [
    MemFolder {
        path: "/",
        folders: &["home"],
        files: &[],
        omitted: 0,
        not_utf8: 0,
    },
    MemFolder {
        path: "/home",
        folders: &["locked", ".git", "docs"],
        files: &["raw", "b\u{1}", "a.txt"],
        omitted: 5,
        not_utf8: 2,
    },
    MemFolder {
        path: "/home/docs",
        folders: &[],
        files: &["todo", "list.txt"],
        omitted: 0,
        not_utf8: 0,
    },
];

/// The files that can be read, by their paths.
const FILES: [(&str, &[u8]); 3] = [
    ("/home/a.txt", b"a word"),
    ("/home/raw", b"a\xff"),
    ("/home/docs/list.txt", b"milk\n\teggs\r\n"),
];

/// The folders above.
#[derive(Drop)]
pub(crate) struct MemFolders {}

impl Folders for MemFolders {
    // No statement about what a folder holds; the tests compare what is shown.
    ghost lists = { λ _ _ _. ⊤ };

    fn list(&self, alloc: Global, folder: &str) -> Mem<Option<Listing>> {
        for known in FOLDERS.iter() {
            if known.path == folder {
                let mut names = Vec::new(alloc);
                push_names(alloc, &mut names, EntryKind::File, known.files)?;
                push_names(alloc, &mut names, EntryKind::Folder, known.folders)?;
                return Ok(Some(Listing {
                    names,
                    omitted: known.omitted,
                    not_utf8: known.not_utf8,
                }));
            }
        }
        Ok(None)
    }

    fn head(&self, alloc: Global, file: &str) -> Mem<Option<Vec<u8>>> {
        for (path, bytes) in FILES.iter() {
            if *path == file {
                let mut head = Vec::new(alloc);
                head.extend_from_slice(*bytes)?;
                return Ok(Some(head));
            }
        }
        Ok(None)
    }
}

fn push_names(alloc: Global, names: &mut Vec<Name>, kind: EntryKind, texts: &[&str]) -> Mem<()> {
    for text in texts.iter() {
        let text = String::from_str(alloc, *text)?;
        names.push(Name { kind, text })?;
    }
    Ok(())
}
