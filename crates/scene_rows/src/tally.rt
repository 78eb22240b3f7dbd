//! Counts of the rows that were run, and of those that were wrong.

use std::io;
use std::io::Write;
use std::process::ExitCode;

/// The rows that were run.
#[derive(Clone, Copy)]
pub(crate) struct Tally {
    rows: u64,
    wrong: u64,
}

impl Tally {
    /// No row was run yet.
    pub(crate) fn new() -> Tally {
        Tally { rows: 0, wrong: 0 }
    }

    /// Counts a row.
    pub(crate) fn count(&mut self, is_right: bool) {
        self.rows = self.rows.saturating_add(1);
        if !is_right {
            self.wrong = self.wrong.saturating_add(1);
        }
    }

    /// Writes the counts.
    pub(crate) fn write_out<W: Write>(&self, out: &mut W) -> io::Result<()> {
        let rows = self.rows;
        let wrong = self.wrong;
        writeln!(out, "{rows} rows, {wrong} wrong")
    }

    /// Returns 0 if no row was wrong, and 1 otherwise.
    pub(crate) fn exit_code(&self) -> ExitCode {
        if self.wrong == 0 {
            ExitCode::SUCCESS
        } else {
            ExitCode::FAILURE
        }
    }
}
