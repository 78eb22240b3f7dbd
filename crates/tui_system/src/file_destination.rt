//! Files that are written to at the end of a run.

ghost use Rattle.std.specs.Prelude.{
  ◌≡◌,
  ◌<◌,
  false,
  IfOk,
  IfSome,
  MatchResult,
  None,
  length,
  string_bytes,
  true,
};
ghost use Rattle.std.specs.Io.{WritesAtMost};
ghost use Rattle.std.specs.Io.KnownBytes.{WriteAppends};
ghost use Rattle.tui_io.specs.Causes.{HasCause};

use crate::answers::or_out_of_memory;
use crate::reports::report;
use std::alloc::AllocGlobal;
use std::fs::{Files, OpenFile, OpenOptions};
use std::io;
use std::io::{Eprint, Error, ErrorKind, Write};
use tui_cells::Mem;
use tui_io::{Failed, Sink};

/// A file of the file system that is open for writing. It counts the writes that failed. Its content stays until bytes
/// are written; a file that did not exist is empty until then. Its bytes are not observable.
#[derive(Drop)]
pub struct FileDestination<'r, R: Files> {
    system: &'r R,
    program: &'r str,
    name: String,
    file: R::File,
    is_truncated: bool,
    io_errors: u64,
}

impl<'r, R: Files + AllocGlobal + Eprint> FileDestination<'r, R> {
    /// Opens the file of this name, or creates it if it doesn't exist. Returns None if the system can't; then a line on
    /// standard error says why, which begins with the name of the program.
    pub fn create(
        system: &'r R,
        program: &'r str,
        name: &str,
    ) -> Mem<Option<FileDestination<'r, R>>>
        ensures named { IfOk result (λ created. IfSome created (λ d. (string_bytes d.name ≡ name.now) × (d.program.now ≡ program.now) × (d.system.now ≡ system.now))) }
        ensures fresh { IfOk result (λ created. IfSome created (λ d. (d.is_truncated ≡ false) × (d.io_errors ≡ 0))) }
    {
        match or_out_of_memory(opened(system, name))? {
            Ok(file) => Ok(Some(FileDestination {
                system,
                program,
                name: String::from_str(system.alloc(), name)?,
                file,
                is_truncated: false,
                io_errors: 0,
            })),
            Err(error) => {
                report(system, program, name, &error)?;
                Ok(None)
            }
        }
    }
}

impl<'r, R: Files + AllocGlobal + Eprint> Sink for FileDestination<'r, R> {
    ghost observed = { λ d. record { bytes = None; io_errors = d.io_errors } };

    /// Writes to the file, which is truncated before the first bytes. If it fails, a line on standard error says why.
    fn put(&mut self, bytes: &[u8]) -> Result<usize, Failed>
        ensures bound { WritesAtMost result bytes.now }
        ensures some { IfOk result (λ n. 0 < length bytes.now → 0 < n) }
        ensures bytes { WriteAppends None None result bytes.now }
        ensures cause { HasCause self.old.io_errors self.new.io_errors result }

        // The file takes the bytes, as far as its contents are observable.
        ensures taken { WriteAppends (R.File.contents self.old.file) (R.File.contents self.new.file) result bytes.now }
        ensures cut { MatchResult result (λ _. self.new.is_truncated ≡ true) (λ _. self.new.is_truncated ≡ self.old.is_truncated) }
        ensures system { self.new.system.now ≡ self.old.system.now }
        ensures program { self.new.program.now ≡ self.old.program.now }
        ensures named { self.new.name ≡ self.old.name }
    {
        match write_some(&mut self.file, self.is_truncated, bytes) {
            Ok(count) => {
                self.is_truncated = true;
                Ok(count)
            }
            Err(error) => {
                let _reported = report(self.system, self.program, self.name.as_str(), &error);
                self.io_errors = self.io_errors.saturating_add(1);
                Err(Failed)
            }
        }
    }
}

/// Opens a file, or creates it if it doesn't exist. Its bytes stay.
fn opened<R: Files>(system: &R, name: &str) -> io::Result<R::File> {
    OpenOptions::new()
        .write(true)
        .create(true)
        .open(system, name)
}

/// Writes to a file. Truncates it first, unless that was done before.
fn write_some<F: Write + OpenFile>(
    file: &mut F,
    is_truncated: bool,
    bytes: &[u8],
) -> io::Result<usize>
    ensures bound { WritesAtMost result bytes.now }
    ensures some { IfOk result (λ n. 0 < length bytes.now → 0 < n) }
    ensures taken { WriteAppends (F.contents file.old) (F.contents file.new) result bytes.now }
{
    if !is_truncated {
        cut(file)?;
    }
    match file.write(bytes) {
        Ok(count) if count > 0 || bytes.is_empty() => Ok(count),
        Ok(_) => Err(Error::from(ErrorKind::WriteZero)),
        Err(error) => Err(error),
    }
}

/// Truncates a regular file. Anything else, such as a pipe or a device, is left as it is.
fn cut<F: OpenFile>(file: &F) -> io::Result<()> {
    if file.metadata()?.is_file() {
        file.set_len(0)
    } else {
        Ok(())
    }
}
