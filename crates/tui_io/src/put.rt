//! Writing all of some bytes.

ghost use Rattle.tui_io.specs.Causes.{Writes};

use crate::sink::{Sink, WriteFault};

/// Writes all of the bytes. Stops at the first failed write and fails with `WriteFault`; the sink has then
/// taken a proper prefix of the bytes.
pub fn write_all<K: Sink>(sink: &mut K, bytes: &[u8]) -> Result<(), WriteFault>
    ensures { Writes (K.observed sink.old) (K.observed sink.new) result bytes.now }
{
    let mut at = 0;
    while at < bytes.len() {
        let Ok(count) = sink.put(&bytes[at..]) else {
            return Err(WriteFault);
        };
        at += count;
    }
    Ok(())
}
