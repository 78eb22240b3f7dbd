//! Standard streams and files of one type.

ghost use Rattle.std.specs.Prelude.{◌<◌, IfOk, length};
ghost use Rattle.std.specs.Io.{ReadsAtMost, WritesAtMost};
ghost use Rattle.std.specs.Io.KnownBytes.{ReadConsumes, WriteAppends};
ghost use Rattle.tui_io.specs.Causes.{HasCause};
ghost use Rattle.tui_system.specs.Stream.{observed_of};

use tui_io::{Failed, Sink, Source};

/// A standard stream, or a file in its place.
#[derive(Drop)]
pub enum Stream<S, F> {
    /// Standard input, output or error.
    Standard(S),
    /// A file that was opened by its name.
    File(F),
}

impl<S: Source, F: Source> Source for Stream<S, F> {
    ghost use Rattle.tui_system.specs.Stream.{observed_of};

    ghost observed = { observed_of S.Source.observed F.Source.observed };

    fn read(&mut self, into: &mut [u8]) -> Result<usize, Failed> {
        match self {
            Stream::Standard(stream) => stream.read(into),
            Stream::File(file) => file.read(into),
        }
    }
}

impl<S: Sink, F: Sink> Sink for Stream<S, F> {
    ghost use Rattle.tui_system.specs.Stream.{observed_of};

    ghost observed = { observed_of S.Sink.observed F.Sink.observed };

    fn put(&mut self, bytes: &[u8]) -> Result<usize, Failed> {
        match self {
            Stream::Standard(stream) => stream.put(bytes),
            Stream::File(file) => file.put(bytes),
        }
    }
}
