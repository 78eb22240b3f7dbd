//! Reading a source to its end.

ghost use Rattle.std.specs.Prelude.{◌≡◌, ◌≢◌, ◌≤◌, ◌+◌, Err, length, IfOk, IsErrOf};
ghost use Rattle.std.specs.Io.KnownBytes.{Consumes, IsAtEnd};
ghost use Rattle.tui_io.specs.Causes.{ReadsBetween, HasFailed};
ghost use Rattle.tui_io.specs.Limits.{chunk, limit};
ghost use Rattle.tui_io.specs.declared.read.ReadEnd.TheVariants.{NoMemory};

use crate::source::Source;
use std::alloc::{AllocError, Global};

/// The largest number of bytes that an input may have.
pub const LIMIT: usize = 1_048_576;

/// The largest number of bytes that one read returns.
pub const CHUNK: usize = 8192;

/// Why an input was not read to its end.
#[derive(Clone, Copy, Debug, PartialEq, Eq)]
pub enum ReadEnd {
    /// A read failed.
    ReadFault,
    /// The input has more than `LIMIT` bytes.
    TooLong,
    /// Out of memory.
    NoMemory,
}

impl From<AllocError> for ReadEnd {
    ghost from_gives = { λ _ e. e ≡ NoMemory };

    fn from(_error: AllocError) -> ReadEnd {
        ReadEnd::NoMemory
    }
}

/// Reads a source to its end, in chunks. Stops at the first failed read, and at the first read that
/// goes beyond `LIMIT`.
pub fn read_all<S: Source>(alloc: Global, source: &mut S) -> Result<Vec<u8>, ReadEnd>
    ensures ok { IfOk result (λ v. Consumes (S.observed source.old).bytes (S.observed source.new).bytes v.items
        × IsAtEnd (S.observed source.new).bytes
        × (length v.items ≤ limit)) }

    // What the source yielded if this fails. Only at `TooLong` it went beyond the limit, and all bytes beyond
    // it came from one read.
    ensures too_long { IsErrOf result ReadEnd.TooLong →
        ReadsBetween (S.observed source.old).bytes (S.observed source.new).bytes (limit + 1) (limit + chunk) }
    ensures read_fault { IsErrOf result ReadEnd.ReadFault →
        ReadsBetween (S.observed source.old).bytes (S.observed source.new).bytes 0 limit }
    ensures no_memory { IsErrOf result ReadEnd.NoMemory →
        ReadsBetween (S.observed source.old).bytes (S.observed source.new).bytes 0 limit }

    // The count of I/O errors: it has risen at `ReadFault`, and is unchanged otherwise.
    ensures cause { IsErrOf result ReadEnd.ReadFault → HasFailed (S.observed source.old) (S.observed source.new) }
    ensures quiet { result ≢ Err ReadEnd.ReadFault → (S.observed source.new).io_errors ≡ (S.observed source.old).io_errors }
{
    let mut bytes = Vec::new(alloc);
    let mut chunk = [0u8; CHUNK];
    'reads: loop {
        let Ok(count) = source.read(&mut chunk) else {
            return Err(ReadEnd::ReadFault);
        };
        if count == 0 {
            return Ok(bytes);
        }
        if count > LIMIT - bytes.len() {
            return Err(ReadEnd::TooLong);
        }
        bytes.extend_from_slice(&chunk[..count])?;
    }
}
