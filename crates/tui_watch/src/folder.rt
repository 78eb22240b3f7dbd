//! Folders of the file system as machines.

ghost use Rattle.std.specs.Bool.{⊤};

use std::alloc::Global;
use std::fs;
use std::fs::File;
use tui_cells::{Mem, NoMemory};
use tui_io::{ReadEnd, read_all};
use tui_program::FileSource;
use tui_system::or_out_of_memory;
use tui_watch_lib::Machine;
use tui_watch_run::Machines;

/// The folders of the file system that `rt` gives access to.
#[derive(Drop)]
pub(crate) struct SystemFolders<'r> {
    pub(crate) rt: &'r HostRuntime,
}

impl<'r> Machines for SystemFolders<'r> {
    type Machine = Folder<'r>;

    // No statement about what a folder of the file system holds.
    ghost is_at = { λ _ _ _. ⊤ };

    fn at(&self, folder: Option<String>) -> Folder<'r> {
        Folder {
            rt: self.rt,
            name: folder,
        }
    }
}

/// A folder of the file system; /proc if it has no name.
#[derive(Drop)]
pub(crate) struct Folder<'r> {
    rt: &'r HostRuntime,
    name: Option<String>,
}

impl<'r> Folder<'r> {
    fn name(&self) -> &str {
        match &self.name {
            Some(name) => name.as_str(),
            None => "/proc",
        }
    }

    // Returns whether a path is that of a regular file. Others, such as FIFOs, are not opened, since opening one might
    // block.
    fn is_file(&self, path: &str) -> Mem<bool> {
        match or_out_of_memory(fs::metadata(self.rt, path))? {
            Ok(metadata) => Ok(metadata.is_file()),
            Err(_) => Ok(false),
        }
    }
}

impl<'r> Machine for Folder<'r> {
    /// Treats a file of more than 1,048,576 bytes as one that can't be read.
    fn text(&self, alloc: Global, path: &str) -> Mem<String> {
        let folder = self.name();
        let path = format!(in alloc; "{folder}/{path}")?;
        if !self.is_file(path.as_str())? {
            return Ok(String::new(alloc));
        }
        let opened = or_out_of_memory(File::open(self.rt, path.as_str()))?;
        let mut source = FileSource::new(opened);
        match read_all(alloc, &mut source) {
            Ok(bytes) => Ok(String::from_utf8_lossy(alloc, &bytes)?),
            Err(ReadEnd::NoMemory) => Err(NoMemory),
            Err(_) => Ok(String::new(alloc)),
        }
    }

    fn numbers(&self, alloc: Global) -> Mem<Vec<u32>> {
        let mut numbers = Vec::new(alloc);
        let Ok(entries) = or_out_of_memory(fs::read_dir(self.rt, self.name()))? else {
            return Ok(numbers);
        };
        for entry in entries {
            if let Ok(entry) = or_out_of_memory(entry)? {
                if let Ok(number) = entry.file_name().parse::<u32>() {
                    numbers.push(number)?;
                }
            }
        }
        Ok(numbers)
    }
}
