//! A buffered writer, so that a sink gets few and long pieces.

ghost use Rattle.std.specs.Prelude.{◌≡◌, ◌+◌, ◌<◌, ◌≤◌, [], ◌∷◌, ◌++◌, decimal, is_ok, length, true};
ghost use Rattle.tui_io.specs.Causes.{WritesIf};
ghost use Rattle.tui_io.specs.Prints.{Prints};
ghost use Rattle.tui_io.specs.Texts.{number_or_dash};

use crate::put::write_all;
use crate::sink::{Sink, WriteFault};
use itoa::Buffer as Digits;
use std::marker::Model;

/// The size of the buffer in bytes. Every piece that is written has at least `ROOM` bytes, except the last
/// one before an `end`.
const ROOM: usize = 8192;

/// A buffered writer of strings, numbers and bytes, similar to `BufWriter`. The buffer is on the stack, and
/// the sink gets pieces of at least 8 KiB, except for the last one.
///
/// After a failed write nothing more is written. Call `end` to write the buffered rest: dropping a `Print`
/// loses it. Never allocates.
#[derive(Drop)]
pub struct Print {
    bytes: [u8; ROOM],
    len: usize,
    ok_so_far: bool,
}

impl Model for Print {
    ghost use Rattle.std.specs.Prelude.{◌≤◌, take};
    ghost use Rattle.tui_io.specs.Prints.{PrintState};

    ghost Value = { PrintState };

    ghost view = { λ g. record { bytes = take g.len g.bytes; ok_so_far = g.ok_so_far } };

    ghost invariant = { λ g. g.len ≤ 8192 };
}

impl Print {
    /// Creates an empty `Print`.
    pub fn new() -> Print
        ensures { result ≡ record { bytes = []; ok_so_far = true } }
    {
        Print {
            bytes: [0; ROOM],
            len: 0,
            ok_so_far: true,
        }
    }

    /// Adds a string.
    #[inline]
    pub fn text<K: Sink>(&mut self, sink: &mut K, text: &str)
        ensures { Prints (K.observed sink.old) (K.observed sink.new) self.old self.new text.now }
    {
        self.extend(sink, text.as_bytes());
    }

    /// Adds a number in decimal digits. A single digit is added without a call.
    #[inline]
    #[tactic(auto, using(std::proofs::lemmas::Fmt::decimal_digit))]
    pub fn number<K: Sink>(&mut self, sink: &mut K, n: usize)
        ensures { Prints (K.observed sink.old) (K.observed sink.new) self.old self.new (decimal n) }
    {
        if n < 10 {
            self.push(sink, b'0' + n as u8);
        } else {
            self.digits(sink, n);
        }
    }

    /// Adds the number of a place, or `-` for `None`.
    pub fn place<K: Sink>(&mut self, sink: &mut K, place: Option<usize>)
        ensures { Prints (K.observed sink.old) (K.observed sink.new) self.old self.new (number_or_dash place) }
    {
        match place {
            None => self.push(sink, b'-'),
            Some(place) => self.number(sink, place),
        }
    }

    /// Writes the buffered bytes. Fails with `WriteFault` if any write has failed since `new`. More may be
    /// added afterwards.
    pub fn end<K: Sink>(&mut self, sink: &mut K) -> Result<(), WriteFault>
        ensures writes_if { WritesIf (K.observed sink.old) (K.observed sink.new)
            self.old.ok_so_far (is_ok result) self.old.bytes }
        ensures new { self.new ≡ record { bytes = []; ok_so_far = is_ok result } }
    {
        self.put(sink);
        if self.ok_so_far {
            Ok(())
        } else {
            Err(WriteFault)
        }
    }

    /// Adds a byte.
    #[inline]
    pub fn push<K: Sink>(&mut self, sink: &mut K, byte: u8)
        ensures { Prints (K.observed sink.old) (K.observed sink.new) self.old self.new (byte ∷ []) }
    {
        if self.len == ROOM {
            self.put(sink);
        }
        self.add(byte);
    }

    /// Adds bytes.
    #[inline]
    pub fn extend<K: Sink>(&mut self, sink: &mut K, bytes: &[u8])
        ensures { Prints (K.observed sink.old) (K.observed sink.new) self.old self.new bytes.now }
    {
        if bytes.len() <= ROOM - self.len {
            self.add_all(bytes);
        } else {
            self.extend_past(sink, bytes);
        }
    }

    fn digits<K: Sink>(&mut self, sink: &mut K, n: usize)
        ensures { Prints (K.observed sink.old) (K.observed sink.new) self.old self.new (decimal n) }
    {
        let mut digits = Digits::new();
        self.extend(sink, digits.format(n).as_bytes());
    }

    // Fills the buffer first, so that a full piece is written.
    #[inline(never)]
    fn extend_past<K: Sink>(&mut self, sink: &mut K, bytes: &[u8])
        requires { ROOM < length self.old.bytes + length bytes.now }
        ensures { Prints (K.observed sink.old) (K.observed sink.new) self.old self.new bytes.now }
    {
        let (first, rest) = bytes.split_at(ROOM - self.len);
        self.add_all(first);
        self.put(sink);
        if rest.len() < ROOM {
            self.add_all(rest);
        } else {
            self.ok_so_far = write_if(self.ok_so_far, sink, rest);
        }
    }

    #[inline]
    fn add(&mut self, byte: u8)
        requires { length self.old.bytes < ROOM }
        ensures { self.new ≡ record { bytes = self.old.bytes ++ byte ∷ []; ok_so_far = self.old.ok_so_far } }
    {
        self.bytes[self.len] = byte;
        self.len += 1;
    }

    #[inline]
    fn add_all(&mut self, bytes: &[u8])
        requires { length self.old.bytes + length bytes.now ≤ ROOM }
        ensures { self.new ≡ record { bytes = self.old.bytes ++ bytes.now; ok_so_far = self.old.ok_so_far } }
    {
        let end = self.len + bytes.len();
        self.bytes[self.len..end].copy_from_slice(bytes);
        self.len = end;
    }

    // Writes the buffered bytes.
    #[inline(never)]
    fn put<K: Sink>(&mut self, sink: &mut K)
        ensures writes_if { WritesIf (K.observed sink.old) (K.observed sink.new)
            self.old.ok_so_far self.new.ok_so_far self.old.bytes }
        ensures none { self.new.bytes ≡ [] }
    {
        self.ok_so_far = write_if(self.ok_so_far, sink, &self.bytes[..self.len]);
        self.len = 0;
    }
}

// Writes all of the bytes if no write has failed so far. Returns whether still none has.
fn write_if<K: Sink>(ok_so_far: bool, sink: &mut K, bytes: &[u8]) -> bool
    ensures { WritesIf (K.observed sink.old) (K.observed sink.new) ok_so_far result bytes.now }
{
    ok_so_far && write_all(sink, bytes).is_ok()
}
