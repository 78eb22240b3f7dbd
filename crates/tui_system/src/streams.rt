//! Where a program's keys, screen and input are.
//!
//! `./live` gives an interactive program its keys and its screen as standard input and standard output, if both are
//! the terminal. Otherwise these two are the user's, and two variables name files for the keys and the screen.

ghost use Rattle.std.specs.Prelude.{◌≡◌, ◌≢◌, IfOk, codes, string_bytes};
ghost use Rattle.tui_system.specs.Stream.{IsFile, IsStandardOrFails};

use crate::answers::{or_out_of_memory, text_of};
use crate::host::Host;
use crate::late::OpensTerminal;
use crate::reports::report;
use crate::stream::Stream;
use std::fs::{File, Files, OpenOptions};
use std::io::{Error, ErrorKind, Input, Printer};
use std::{env, io};
use tui_app::IoTerminal;
use tui_cells::Mem;
use tui_io::{StdSink, StdSource};
use tui_program::FileSource;

/// The variable with the name of the file that gives the keys.
const KEYS: &str = "GOLDGOPHER_KEYS";

/// The variable with the name of the terminal that shows the screen.
const SCREEN: &str = "GOLDGOPHER_SCREEN";

/// Standard input, or a file.
pub type InputStream<R> = Stream<StdSource<<R as Input>::Reader>, FileSource<<R as Files>::File>>;

/// Standard output, or a file.
pub type OutputStream<'r, R> = Stream<StdSink<Printer<'r, R>>, StdSink<<R as Files>::File>>;

/// A terminal of two streams.
pub type StreamTerminal<'r, R> = IoTerminal<InputStream<R>, OutputStream<'r, R>>;

/// Where the input of a terminal comes from.
#[derive(Clone, Copy, Debug, PartialEq, Eq)]
pub enum TerminalInput {
    /// From the file of keys, if there is one, or else from standard input.
    Keys,
    /// From standard input.
    Lines,
}

// No clause says what the variables contain, or what the files give, since no clause of std does.

/// Returns the text of a variable; empty if it is not set or not UTF-8.
pub(crate) fn variable<R: Host>(rt: &R, name: &str) -> Mem<String> {
    text_of(rt.alloc(), env::var(rt, name))
}

/// The streams of a terminal. If its screen can't be opened, there is no terminal. If its keys can't be opened, every
/// read fails. In both cases a line on standard error says why, which begins with the name of the program.
#[derive(Drop)]
pub struct SystemStreams<'r, R> {
    pub(crate) rt: &'r R,
    pub(crate) program: &'r str,
    pub(crate) input: TerminalInput,
}

impl<'r, R: Host> OpensTerminal for SystemStreams<'r, R> {
    ghost use Rattle.std.specs.Prelude.{⊤};

    type Terminal = StreamTerminal<'r, R>;

    ghost opens = { λ _ _. ⊤ };

    fn open(&self) -> Mem<Option<StreamTerminal<'r, R>>> {
        let Some(screen) = screen(self.rt, self.program)? else {
            return Ok(None);
        };
        let source = match self.input {
            TerminalInput::Keys => keys(self.rt, self.program)?,
            TerminalInput::Lines => Stream::Standard(StdSource::new(self.rt.reader())),
        };
        Ok(Some(IoTerminal::new(source, screen)))
    }
}

fn keys<R: Host>(rt: &R, program: &str) -> Mem<InputStream<R>> {
    let name = variable(rt, KEYS)?;
    if name.is_empty() {
        Ok(Stream::Standard(StdSource::new(rt.reader())))
    } else {
        file_input(rt, program, name.as_str())
    }
}

fn screen<'r, R: Host>(rt: &'r R, program: &str) -> Mem<Option<OutputStream<'r, R>>> {
    let name = variable(rt, SCREEN)?;
    if name.is_empty() {
        return Ok(Some(Stream::Standard(StdSink::new(io::writer(rt)))));
    }
    let opened = OpenOptions::new().write(true).open(rt, name.as_str());
    match or_out_of_memory(opened)? {
        Ok(file) => Ok(Some(Stream::File(StdSink::new(file)))),
        Err(error) => {
            report(rt, program, name.as_str(), &error)?;
            Ok(None)
        }
    }
}

/// Whether the keys and the screen have files of their own, so that standard input and output are the user's.
pub(crate) fn has_own_streams<R: Host>(rt: &R) -> Mem<bool> {
    Ok(!variable(rt, KEYS)?.is_empty() && !variable(rt, SCREEN)?.is_empty())
}

/// Returns the input of this name. `-` is standard input, unless that gives the keys. If the input can't be opened,
/// every read fails, and a line on standard error says why.
pub(crate) fn input<R: Host>(
    rt: &R,
    program: &str,
    terminal: TerminalInput,
    name: &str,
) -> Mem<InputStream<R>>
    ensures dash { IfOk result (λ stream. name.now ≡ codes "-" → IsStandardOrFails stream) }
    ensures file { IfOk result (λ stream. name.now ≢ codes "-" → IsFile stream) }
{
    if name != "-" {
        return file_input(rt, program, name);
    }
    if terminal == TerminalInput::Lines || has_own_streams(rt)? {
        return Ok(Stream::Standard(StdSource::new(rt.reader())));
    }
    let error = Error::new(ErrorKind::InvalidInput, "standard input gives the keys");
    report(rt, program, name, &error)?;
    Ok(Stream::File(FileSource::new(Err(error))))
}

/// Returns a file as a source. If it can't be opened, every read fails, and a line on standard error says why.
fn file_input<R: Host>(rt: &R, program: &str, name: &str) -> Mem<InputStream<R>>
    ensures { IfOk result IsFile }
{
    let opened = or_out_of_memory(File::open(rt, name))?;
    if let Err(error) = &opened {
        report(rt, program, name, error)?;
    }
    Ok(Stream::File(FileSource::new(opened)))
}
