//! Adapters from readers and writers of the standard library to sources and sinks: the edge to the system.

ghost use Rattle.std.specs.Prelude.{◌≡◌};

use crate::sink::Sink;
use crate::source::{Failed, Source};
use std::io::{Read, Write};

/// A reader as a source. Counts the failed reads. Its bytes are known if the reader's are, which is not so
/// for a program's standard input.
#[derive(Drop)]
pub struct StdSource<R> {
    inner: R,
    io_errors: u64,
}

impl<R: Read + Drop> StdSource<R> {
    /// Creates a source over this reader. Nothing has been read, and no read has failed.
    pub fn new(inner: R) -> StdSource<R>
        ensures untouched { result.inner ≡ inner }
        ensures fresh { result.io_errors ≡ 0 }
    {
        StdSource {
            inner,
            io_errors: 0,
        }
    }
}

impl<R: Read + Drop> Source for StdSource<R> {
    ghost observed = { λ s. record { bytes = R.remaining s.inner; io_errors = s.io_errors } };

    fn read(&mut self, into: &mut [u8]) -> Result<usize, Failed> {
        match self.inner.read(into) {
            Ok(count) => Ok(count),
            Err(_) => {
                self.io_errors = self.io_errors.saturating_add(1);
                Err(Failed)
            }
        }
    }
}

/// A writer as a sink. Counts the writes that failed or took nothing. Its bytes are known if the writer's
/// are, which is not so for a program's standard output.
#[derive(Drop)]
pub struct StdSink<W> {
    inner: W,
    io_errors: u64,
}

impl<W: Write + Drop> StdSink<W> {
    /// Creates a sink over this writer. Nothing has been written, and no write has failed.
    pub fn new(inner: W) -> StdSink<W>
        ensures untouched { result.inner ≡ inner }
        ensures fresh { result.io_errors ≡ 0 }
    {
        StdSink {
            inner,
            io_errors: 0,
        }
    }
}

impl<W: Write + Drop> Sink for StdSink<W> {
    ghost observed = { λ s. record { bytes = W.contents s.inner; io_errors = s.io_errors } };

    fn put(&mut self, bytes: &[u8]) -> Result<usize, Failed> {
        match self.inner.write(bytes) {
            Ok(count) if count > 0 || bytes.is_empty() => Ok(count),
            _ => {
                self.io_errors = self.io_errors.saturating_add(1);
                Err(Failed)
            }
        }
    }
}
