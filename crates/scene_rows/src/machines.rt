//! The machines of a row.

ghost use Rattle.std.specs.Bool.{⊤};

use crate::members::{member, text_in};
use serde_json::Value;
use std::alloc::Global;
use tui_cells::Mem;
use tui_watch_lib::Machine;
use tui_watch_run::Machines;

/// Folders among the files of a row, as machines.
#[derive(Drop)]
pub(crate) struct RowMachines<'v> {
    pub(crate) row: &'v Value,
}

impl<'v> Machines for RowMachines<'v> {
    type Machine = RowMachine<'v>;

    // No statement about which machine is in a folder; the rows compare what is shown.
    ghost is_at = { λ _ _ _. ⊤ };

    fn at(&self, folder: Option<String>) -> RowMachine<'v> {
        RowMachine {
            row: self.row,
            folder,
        }
    }
}

/// A folder among the files of a row; /proc if it has no name.
#[derive(Drop)]
pub(crate) struct RowMachine<'v> {
    row: &'v Value,
    folder: Option<String>,
}

impl<'v> RowMachine<'v> {
    fn folder(&self) -> &str {
        match &self.folder {
            Some(folder) => folder.as_str(),
            None => "/proc",
        }
    }

    /// Returns the number of the process whose `stat` has this path.
    fn number_of(&self, path: &str) -> Option<u32> {
        let path = path.strip_prefix(self.folder())?.strip_prefix('/')?;
        match path.strip_suffix("/stat")?.parse::<u32>() {
            Ok(number) => Some(number),
            Err(_) => None,
        }
    }
}

impl<'v> Machine for RowMachine<'v> {
    fn text(&self, alloc: Global, path: &str) -> Mem<String> {
        let folder = self.folder();
        let path = format!(in alloc; "{folder}/{path}")?;
        let text = text_in(self.row, "files", path.as_str()).unwrap_or("");
        Ok(String::from_str(alloc, text)?)
    }

    fn numbers(&self, alloc: Global) -> Mem<Vec<u32>> {
        let mut numbers = Vec::new(alloc);
        let Some(Value::Object(files)) = member(self.row, "files") else {
            return Ok(numbers);
        };
        for (path, _text) in files {
            if let Some(number) = self.number_of(path.as_str()) {
                numbers.push(number)?;
            }
        }
        Ok(numbers)
    }
}
