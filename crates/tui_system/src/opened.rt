//! What a system has opened for what a program gives at its end.

ghost use Rattle.std.specs.Prelude.{string_bytes};

use crate::file_destination::FileDestination;
use crate::host::Host;
use crate::late::OpensPlace;
use crate::place::Place;
use std::io;
use std::io::{Printer, Write};
use tui_cells::Mem;
use tui_io::{Failed, Sink, StdSink};

/// Standard output, standard error or a file.
#[derive(Drop)]
pub enum Opened<W, E, F> {
    Output(W),
    Errors(E),
    File(F),
}

impl<W: Sink, E: Sink, F: Sink> Sink for Opened<W, E, F> {
    ghost use Rattle.tui_system.specs.Destination.{opened_observed};

    ghost observed = { opened_observed W.Sink.observed E.Sink.observed F.Sink.observed };

    fn put(&mut self, bytes: &[u8]) -> Result<usize, Failed> {
        match self {
            Opened::Output(output) => output.put(bytes),
            Opened::Errors(errors) => errors.put(bytes),
            Opened::File(file) => file.put(bytes),
        }
    }
}

/// What `SystemPlaces` opens.
pub type SystemOpened<'r, R, E> = Opened<
    StdSink<Printer<'r, R>>,
    StdSink<E>,
    FileDestination<'r, R>,
>;

/// The places of a system. If a file can't be opened or written, a line on standard error says why, which begins with
/// the name of the program.
#[derive(Drop)]
pub struct SystemPlaces<'r, R, E> {
    pub(crate) rt: &'r R,
    pub(crate) program: &'r str,
    /// Writes to standard error.
    pub(crate) errors: E,
}

impl<'r, R: Host, E: Write + Copy + Drop> OpensPlace for SystemPlaces<'r, R, E> {
    ghost use Rattle.tui_system.specs.Destination.{OpensAt};

    type Opened = SystemOpened<'r, R, E>;

    ghost opens = { λ _ place found. OpensAt (λ f. string_bytes f.name) place found };

    fn open(&self, place: Place<'_>) -> Mem<Option<SystemOpened<'r, R, E>>> {
        match place {
            Place::Output => Ok(Some(Opened::Output(StdSink::new(io::writer(self.rt))))),
            Place::Errors => Ok(Some(Opened::Errors(StdSink::new(self.errors)))),
            Place::File(name) => match FileDestination::create(self.rt, self.program, name)? {
                Some(file) => Ok(Some(Opened::File(file))),
                None => Ok(None),
            },
        }
    }
}
