//! Records of a report.

/// Texts, one for each column. A column without a text is left blank, and texts past the columns are not shown.
#[derive(Debug, PartialEq, Eq, Hash)]
pub struct Record<'a> {
    pub cells: Vec<&'a str>,
}

// Written by hand, so that dependent crates need no proofs about dropping the fields.
impl<'a> Drop for Record<'a> {
    fn drop(self) {
        let Record { cells } = self;
    }
}
