//! The rows of the list.

ghost use Rattle.std.specs.Option.{option_copied};
ghost use Rattle.std.specs.Prelude.{◌≡◌, IfOk, Some};
ghost use Rattle.tui_files_lib.specs.Rows.{ListsNames, contains_filter, is_hidden, is_wanted, place_of, row_at};

use crate::folders::Name;
use crate::naming::label_of;
use std::alloc::Global;
use tui_cells::Mem;

/// A name as the list displays it, and its index in the listing.
#[derive(Drop)]
pub(crate) struct NameRow {
    pub(crate) label: String,
    pub(crate) place: usize,
}

/// Which names are listed: those that contain `filter_text`. Hidden names, which begin with a dot, are listed only if `hidden`
/// is set.
#[derive(Clone, Copy)]
pub(crate) struct NameFilter<'w> {
    pub(crate) hidden: bool,
    pub(crate) filter_text: &'w str,
}

impl NameFilter<'_> {
    fn takes(self, name: &str) -> bool
        ensures { result ≡ is_wanted self.entry.hidden self.entry.filter_text.now name.now }
    {
        (self.hidden || !is_hidden(name)) && contains_filter(self.filter_text, name)
    }
}

fn is_hidden(name: &str) -> bool
    ensures { result ≡ is_hidden name.now }
{
    name.starts_with('.')
}

fn contains_filter(filter_text: &str, text: &str) -> bool
    ensures { result ≡ contains_filter filter_text.now text.now }
{
    text.contains(filter_text)
}

/// Returns the rows of the names that are listed, in the order of the names.
pub(crate) fn rows_of(
    alloc: Global,
    names: &[Name],
    name_filter: NameFilter<'_>,
) -> Mem<Vec<NameRow>>
    ensures { IfOk result (λ rows. ListsNames name_filter.entry.hidden name_filter.entry.filter_text.now names.now rows.items) }
{
    let mut rows = Vec::new(alloc);
    for place in 0..names.len() {
        let name = &names[place];
        if name_filter.takes(name.text.as_str()) {
            let label = label_of(alloc, name)?;
            rows.push(NameRow { label, place })?;
        }
    }
    Ok(rows)
}

/// Returns the row of the name at an index, or 0 if it has none.
pub(crate) fn row_at(rows: &[NameRow], place: usize) -> usize
    ensures { result ≡ row_at rows.now place }
{
    rows.iter().position(|row| row.place == place).unwrap_or(0)
}

/// Returns the index of the name to be selected, or 0 if it isn't there.
pub(crate) fn place_of(names: &[Name], name: Option<&str>) -> usize
    ensures { result ≡ place_of names.now (option_copied name.entry) }
{
    match name {
        Some(text) => place_of_text(names, text),
        None => 0,
    }
}

fn place_of_text(names: &[Name], text: &str) -> usize
    ensures { result ≡ place_of names.now (Some text.now) }
{
    names
        .iter()
        .position(|name| name.text.as_str() == text)
        .unwrap_or(0)
}
