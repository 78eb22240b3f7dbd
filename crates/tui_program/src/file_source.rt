//! Files as sources.

ghost use Rattle.std.specs.Prelude.{◌≡◌, IsErr, IsNone, is_some};
ghost use Rattle.std.specs.Io.{ReadsAtMost};
ghost use Rattle.std.specs.Io.KnownBytes.{ReadConsumes};
ghost use Rattle.std.specs.Result.{result_ok};
ghost use Rattle.tui_io.specs.Causes.{HasCause};
ghost use Rattle.tui_program.specs.Files.{remaining_of};

use std::io;
use std::io::Read;
use tui_io::{Failed, Source};

/// A file as a source, with the number of failed reads. If the file could not be opened, every read fails. Its
/// remaining bytes are known if the file reports them; a file of the system does not.
#[derive(Drop)]
pub struct FileSource<F> {
    file: Option<F>,
    io_errors: u64,
}

impl<F: Read + Drop> FileSource<F> {
    /// Creates a source from the result of opening a file. Nothing was read yet, and no read has failed.
    pub fn new(opened: io::Result<F>) -> FileSource<F>
        ensures opened { result.file ≡ result_ok opened }
        ensures fresh { result.io_errors ≡ 0 }
    {
        FileSource {
            file: opened.ok(),
            io_errors: 0,
        }
    }
}

impl<F: Read + Drop> Source for FileSource<F> {
    ghost use Rattle.tui_program.specs.Files.{remaining_of};

    ghost observed = { λ s. record { bytes = remaining_of F.remaining s.file; io_errors = s.io_errors } };

    /// Reads on in the file. Fails with `Failed` also if the file was not opened.
    fn read(&mut self, into: &mut [u8]) -> Result<usize, Failed>
        ensures bound { ReadsAtMost result into.new }
        ensures bytes { ReadConsumes (remaining_of F.remaining self.old.file) (remaining_of F.remaining self.new.file) result into.new }
        ensures cause { HasCause self.old.io_errors self.new.io_errors result }
        ensures shut { IsNone self.old.file → IsErr result }
        ensures open { is_some self.new.file ≡ is_some self.old.file }
    {
        match read_some(&mut self.file, into) {
            Ok(count) => Ok(count),
            Err(_) => {
                self.io_errors = self.io_errors.saturating_add(1);
                Err(Failed)
            }
        }
    }
}

/// Reads from a file. Fails if there is none.
fn read_some<F: Read>(file: &mut Option<F>, into: &mut [u8]) -> Result<usize, Failed>
    ensures bound { ReadsAtMost result into.new }
    ensures bytes { ReadConsumes (remaining_of F.remaining file.old) (remaining_of F.remaining file.new) result into.new }
    ensures shut { IsNone file.old → IsErr result }
    ensures open { is_some file.new ≡ is_some file.old }
{
    match file {
        Some(file) => match file.read(into) {
            Ok(count) => Ok(count),
            Err(_) => Err(Failed),
        },
        None => Err(Failed),
    }
}
