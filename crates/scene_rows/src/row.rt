//! A row of the data that runs a program.
//!
//! - `name`: what the row shows
//! - `program`: the program that runs, `show` if it is left out; `words`: its arguments
//! - `input`: the input as text; `input_hex`: as hexadecimal digits, two a byte; `input_parts`: as texts one after another, each with the number of times that
//!   it is repeated
//! - `reads`: the numbers of the reads that fail, from 1; `puts`: those of the writes
//! - `room`: how many bytes the sink has room for
//! - `each`: what changes from run to run, if the row is run again and again

use crate::members::{member, numbers, texts};
use crate::program::Program;
use anyhow::{Result, bail};
use serde_json::Value;
use std::alloc::Global;

/// The keys of a row.
pub(crate) const KEYS: [&str; 15] = [
    "name",
    "program",
    "words",
    "input",
    "input_hex",
    "input_parts",
    "reads",
    "puts",
    "room",
    "each",
    "frames",
    "session",
    "display",
    "asking",
    "running",
];

/// A program, and its arguments.
#[derive(Drop)]
pub(crate) struct Row<'v> {
    pub(crate) value: &'v Value,
    pub(crate) program: Program,
    pub(crate) words: Vec<String>,
}

/// What changes from run to run.
#[derive(Clone, Copy)]
pub(crate) enum Each {
    /// The input is cut after no byte, after the first one, and so on up to all but the last.
    Cut,
    /// A write fails: the first one alone, the second one alone, and so on until none does.
    Put,
    /// The sink has room for no byte, for one, and so on up to all but the last of the output.
    Room,
}

impl Each {
    /// What changes by this name.
    pub(crate) fn of(name: &Value) -> Result<Each> {
        match name.as_str() {
            Some("cut") => Ok(Each::Cut),
            Some("put") => Ok(Each::Put),
            Some("room") => Ok(Each::Room),
            _ => bail!("nothing that changes"),
        }
    }
}

/// What a run reads, and what fails in it.
#[derive(Drop)]
pub(crate) struct Given {
    pub(crate) input: Vec<u8>,
    pub(crate) reads: Vec<u64>,
    pub(crate) puts: Vec<u64>,
    pub(crate) room: usize,
}

impl<'v> Row<'v> {
    /// The program of a row, and its arguments.
    pub(crate) fn of(alloc: Global, value: &'v Value) -> Result<Row<'v>> {
        Ok(Row {
            value,
            program: Program::of(value)?,
            words: words_of(alloc, value)?,
        })
    }

    /// What the row's run reads, and what fails in it.
    pub(crate) fn given(&self, alloc: Global) -> Result<Given> {
        Ok(Given {
            input: input_of(alloc, self.value)?,
            reads: numbers(alloc, self.value, "reads")?,
            puts: numbers(alloc, self.value, "puts")?,
            room: room_of(self.value)?,
        })
    }
}

fn words_of(alloc: Global, row: &Value) -> Result<Vec<String>> {
    let mut words = Vec::new(alloc);
    for text in texts(alloc, row, "words")? {
        words.push(String::from_str(alloc, text)?)?;
    }
    Ok(words)
}

/// How many bytes the sink has room for; many if the row does not say it.
fn room_of(row: &Value) -> Result<usize> {
    match member(row, "room") {
        None => Ok(65_536),
        Some(room) => match room.as_u64() {
            Some(room) => Ok(room as usize),
            None => bail!("no number of bytes"),
        },
    }
}

/// The bytes of the input, which is given in one form at most; none without it.
fn input_of(alloc: Global, row: &Value) -> Result<Vec<u8>> {
    match (
        member(row, "input"),
        member(row, "input_hex"),
        member(row, "input_parts"),
    ) {
        (None, None, None) => Ok(Vec::new(alloc)),
        (Some(text), None, None) => bytes_of(alloc, text),
        (None, Some(digits), None) => decoded(alloc, digits),
        (None, None, Some(parts)) => repeated(alloc, parts),
        _ => bail!("more than one input"),
    }
}

fn bytes_of(alloc: Global, text: &Value) -> Result<Vec<u8>> {
    match text.as_str() {
        Some(text) => Ok(Vec::from_slice(alloc, text.as_bytes())?),
        None => bail!("an input that is no text"),
    }
}

fn decoded(alloc: Global, digits: &Value) -> Result<Vec<u8>> {
    match digits.as_str() {
        Some(digits) => Ok(hex::decode(alloc, digits)?),
        None => bail!("digits that are no text"),
    }
}

fn repeated(alloc: Global, parts: &Value) -> Result<Vec<u8>> {
    let mut bytes = Vec::new(alloc);
    let Some(parts) = parts.as_array() else {
        bail!("parts that are no array");
    };
    for part in parts {
        add_part(&mut bytes, part)?;
    }
    Ok(bytes)
}

/// Adds a text as many times as its number says.
fn add_part(bytes: &mut Vec<u8>, part: &Value) -> Result<()> {
    let (Some(text), Some(times)) = (text_in(part), times_in(part)) else {
        bail!("a part that is no text and number");
    };
    for _time in 0..times {
        bytes.extend_from_slice(text.as_bytes())?;
    }
    Ok(())
}

fn text_in(part: &Value) -> Option<&str> {
    part.get(0usize)?.as_str()
}

fn times_in(part: &Value) -> Option<u64> {
    part.get(1usize)?.as_u64()
}
