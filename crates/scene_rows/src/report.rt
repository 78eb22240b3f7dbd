//! What is written about a row.

use std::io;
use std::io::Write;

/// Writes the status, and then what the run has written. If that does not end with a newline, adds one, and `, cut`
/// after the status.
pub(crate) fn report<W: Write>(out: &mut W, status: u8, written: &[u8]) -> io::Result<()> {
    let end = if is_cut(written) { ", cut" } else { "" };
    writeln!(out, "status {status}{end}")?;
    out.write_all(written)?;
    if is_cut(written) {
        out.write_all(b"\n")?;
    }
    Ok(())
}

fn is_cut(written: &[u8]) -> bool {
    match written {
        [] | [.., b'\n'] => false,
        _ => true,
    }
}
