//! Paths, and texts as they are displayed.

ghost use Rattle.std.specs.Prelude.{◌≡◌, IfOk, string_bytes};
ghost use Rattle.tui_files_lib.specs.Browsing.{path_of, separator_after};
ghost use Rattle.tui_files_lib.specs.Naming.{label_of, kind_suffix, shown_char, without_controls};

use crate::folders::{EntryKind, HEAD_BYTES, Name};
use std::alloc::Global;
use tui_cells::Mem;

/// Replaces a control character.
const REPLACEMENT: char = '\u{FFFD}';

/// Returns a name as the list displays it: a slash follows the name of a folder.
pub(crate) fn label_of(alloc: Global, name: &Name) -> Mem<String>
    ensures { IfOk result (λ label. string_bytes label ≡ label_of name.now) }
{
    let mut label = without_controls(alloc, name.text.as_str())?;
    label.push_str(kind_suffix(name.kind))?;
    Ok(label)
}

fn kind_suffix(kind: EntryKind) -> &'static str
    ensures { result.now ≡ kind_suffix kind }
{
    match kind {
        EntryKind::Folder => "/",
        EntryKind::File => "",
    }
}

/// Returns a text with U+FFFD in place of each control character.
pub(crate) fn without_controls(alloc: Global, text: &str) -> Mem<String>
    ensures { IfOk result (λ shown. string_bytes shown ≡ without_controls text.now) }
{
    let mut shown = String::with_capacity(alloc, text.len())?;
    for character in text.chars() {
        shown.push(shown_char(character))?;
    }
    Ok(shown)
}

fn shown_char(character: char) -> char
    ensures { result ≡ shown_char character }
{
    if character.is_control() {
        REPLACEMENT
    } else {
        character
    }
}

/// Returns the path of a name in a folder.
pub(crate) fn path_of(alloc: Global, folder: &str, name: &str) -> Mem<String>
    ensures { IfOk result (λ path. string_bytes path ≡ path_of folder.now name.now) }
{
    let mut path = String::from_str(alloc, folder)?;
    path.push_str(separator_after(folder))?;
    path.push_str(name)?;
    Ok(path)
}

fn separator_after(folder: &str) -> &str
    ensures { result.now ≡ separator_after folder.now }
{
    if folder.ends_with('/') { "" } else { "/" }
}

/// Returns how a file that begins with these bytes is displayed. The last character may be cut if there are
/// `HEAD_BYTES` bytes.
pub(crate) fn head_text(alloc: Global, bytes: &[u8]) -> Mem<String> {
    match str::from_utf8(bytes) {
        Ok(text) => shown_text(alloc, text),
        Err(error) if error.error_len().is_none() && bytes.len() == HEAD_BYTES => {
            match str::from_utf8(&bytes[..error.valid_up_to()]) {
                Ok(text) => shown_text(alloc, text),
                Err(_) => Ok(String::from_str(alloc, "binary")?),
            }
        }
        Err(_) => Ok(String::from_str(alloc, "binary")?),
    }
}

/// Returns the lines of a text as they are displayed: four spaces for a tab, no carriage returns, and U+FFFD for any
/// other control character.
fn shown_text(alloc: Global, text: &str) -> Mem<String> {
    let mut shown = String::with_capacity(alloc, text.len())?;
    for character in text.chars() {
        match character {
            '\n' => shown.push('\n')?,
            '\t' => shown.push_str("    ")?,
            '\r' => {}
            _ if character.is_control() => shown.push(REPLACEMENT)?,
            _ => shown.push(character)?,
        }
    }
    Ok(shown)
}
