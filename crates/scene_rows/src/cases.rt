//! The rows of a file, each with its expected output.

use anyhow::{Result, bail};
use std::alloc::Global;

/// A row, and what its run is to write.
pub(crate) struct Case<'t> {
    /// The number of the row's line, from 1.
    pub(crate) line: usize,
    /// The row: a line of JSON.
    pub(crate) row: &'t str,
    /// The lines below it, up to the next row, each with a newline.
    pub(crate) expected: String,
}

// Written out, so that a function which lets such a value go proves nothing of what it holds.
impl<'t> Drop for Case<'t> {
    fn drop(self) {
        let Case {
            line,
            row,
            expected,
        } = self;
    }
}

/// The rows of a text. A line that begins with `{` is a row.
pub(crate) fn cases(alloc: Global, text: &str) -> Result<Vec<Case<'_>>> {
    let mut found = Vec::new(alloc);
    for (place, line) in text.lines().enumerate() {
        if line.starts_with('{') {
            found.push(Case {
                line: place.saturating_add(1),
                row: line,
                expected: String::new(alloc),
            })?;
        } else {
            add_line(&mut found, line)?;
        }
    }
    Ok(found)
}

/// Adds a line to the expected output of the last row.
fn add_line(found: &mut Vec<Case<'_>>, line: &str) -> Result<()> {
    match found.last_mut() {
        Some(case) => {
            case.expected.push_str(line)?;
            case.expected.push('\n')?;
            Ok(())
        }
        None => bail!("a line before the first row"),
    }
}
