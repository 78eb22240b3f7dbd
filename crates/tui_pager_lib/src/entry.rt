//! Entries of a pager.

/// What a pager shows of one item: the title in the list, and the body beside it while the entry is selected. Both may
/// have several lines, which end at newlines.
#[derive(Clone, Copy, Debug, PartialEq, Eq, Hash)]
pub struct Entry<'a> {
    pub title: &'a str,
    pub body: &'a str,
}
