//! The place for what a program gives, in memory.

ghost use Rattle.std.specs.Prelude.{None};

use crate::frames::write_escaped;
use crate::members::{flag, member, numbers};
use anyhow::{Result, bail};
use serde_json::Value;
use std::alloc::Global;
use std::io::Write;
use tui_cells::Mem;
use tui_io::{Failed, MemSink, Sink};
use tui_system::{Destination, Place};

/// Which place a program has opened, and what it has written there.
#[derive(Drop)]
pub(crate) struct RowPlace {
    alloc: Global,
    is_shut: bool,
    opened: Option<String>,
    sink: MemSink,
    io_errors: u64,
}

impl RowPlace {
    pub(crate) fn of(alloc: Global, row: &Value) -> Result<RowPlace> {
        Ok(RowPlace {
            alloc,
            is_shut: flag(row, "is_shut").unwrap_or(false),
            opened: None,
            sink: MemSink::new(alloc, room_of(row)?, numbers(alloc, row, "puts")?)?,
            io_errors: 0,
        })
    }

    /// Writes the name of the place, if it was opened, and what it got.
    pub(crate) fn write<W: Write>(&self, out: &mut W) -> Result<()> {
        if let Some(name) = &self.opened {
            write!(out, "{name}:")?;
            if !self.sink.bytes().is_empty() {
                write!(out, " ")?;
            }
            write_escaped(out, self.sink.bytes())?;
            writeln!(out, "")?;
        }
        Ok(())
    }
}

/// How many bytes the place has room for; many if the row does not say it.
fn room_of(row: &Value) -> Result<usize> {
    match member(row, "room") {
        None => Ok(65_536),
        Some(room) => match room.as_u64() {
            Some(room) => Ok(room as usize),
            None => bail!("no number of bytes"),
        },
    }
}

impl Destination for RowPlace {
    ghost use Rattle.std.specs.Prelude.{⊤};

    ghost is_open_at = { λ _ _. ⊤ };

    fn open(&mut self, place: Place<'_>) -> Mem<Result<(), Failed>> {
        if self.is_shut {
            self.io_errors = self.io_errors.saturating_add(1);
            return Ok(Err(Failed));
        }
        let name = match place {
            Place::Output => String::from_str(self.alloc, "output")?,
            Place::Errors => String::from_str(self.alloc, "errors")?,
            Place::File(name) => format!(in self.alloc; "file {name}")?,
        };
        self.opened = Some(name);
        Ok(Ok(()))
    }
}

impl Sink for RowPlace {
    ghost observed = { λ place. record { bytes = None; io_errors = place.io_errors } };

    fn put(&mut self, bytes: &[u8]) -> Result<usize, Failed> {
        let taken = self.sink.put(bytes);
        if taken.is_err() {
            self.io_errors = self.io_errors.saturating_add(1);
        }
        taken
    }
}
