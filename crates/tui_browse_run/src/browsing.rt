//! From the arguments and a file to a session.

ghost use Rattle.std.specs.Prelude.{◌≡◌, OnErr, map};
ghost use Rattle.serde_json.specs.View.{view};
ghost use Rattle.tui_browse_run.specs.Input.{Means, browse_reader, entries_of, TextMeans};
ghost use Rattle.tui_browse_run.specs.Shown.{AreEntriesShown, AreShownOn};
ghost use Rattle.tui_json.specs.Refusals.{Gives};
ghost use Rattle.tui_pager_lib.specs.Entry.{entry_data};
ghost use Rattle.tui_program.specs.Input.{MeansJson, Reaches};
ghost use Rattle.tui_system.specs.Commands.{ComesTo};

use crate::arguments::BrowseCommand;
use crate::entries::read_entries;
use crate::format::Format;
use crate::pieces::pieces_of;
use crate::session::show;
use crate::text_entry::{borrowed_entries, text_entries};
use serde_json::Value;
use std::alloc::Global;
use tui_app::{AppEnd, Terminal};
use tui_json::InputError;
use tui_pager_lib::Entry;
use tui_pager_run::{BadInput, explain_input};
use tui_program::{Outcome, Stop, json_or_explain};
use tui_system::{FileCommand, NamedFile, Setting, System, read_for_command, setting};

/// Shows what the file has that the arguments name. If the run is stopped before, nothing is written to the terminal.
pub(crate) fn show_file<S: System, T: Terminal>(
    system: &S,
    terminal: &mut T,
) -> Outcome<AppEnd, BadInput>
    ensures shown { Reaches (ComesTo (S.gives system.now) browse_reader) (AreShownOn (S.gives system.now) (T.observed terminal.old) (T.observed terminal.new)) result }
    ensures still { OnErr result (T.observed terminal.new ≡ T.observed terminal.old) }
{
    let setting = setting(system)?;
    let (command, bytes) = read_for_command::<BrowseCommand, BadInput, S>(system)?;
    show_bytes(system, setting, &command, bytes, terminal)
}

fn show_bytes<S: System, T: Terminal>(
    system: &S,
    setting: Setting,
    command: &BrowseCommand,
    bytes: Vec<u8>,
    terminal: &mut T,
) -> Outcome<AppEnd, BadInput>
    ensures shown { Reaches (Means command.now.format bytes.items) (AreEntriesShown setting (T.observed terminal.old) (T.observed terminal.new)) result }
    ensures still { OnErr result (terminal.new ≡ terminal.old) }
{
    match command.format {
        Format::Entries => show_json(system, setting, command.file(), bytes, terminal),
        Format::Text => show_text(system.alloc(), setting, bytes.as_slice(), terminal),
    }
}

fn show_json<S: System, T: Terminal>(
    system: &S,
    setting: Setting,
    name: &str,
    bytes: Vec<u8>,
    terminal: &mut T,
) -> Outcome<AppEnd, BadInput>
    ensures shown { Reaches (MeansJson entries_of bytes.items) (AreEntriesShown setting (T.observed terminal.old) (T.observed terminal.new)) result }
    ensures still { OnErr result (terminal.new ≡ terminal.old) }
{
    let value = json_or_explain(system.alloc(), bytes, &NamedFile { system, name })?;
    let entries = entries_or_explain(system, name, &value)?;
    Ok(show(system.alloc(), entries, setting, terminal))
}

/// Reads entries. If they are rejected, a line on standard error says what is wrong with them.
fn entries_or_explain<'v, S: System>(
    system: &S,
    name: &str,
    value: &'v Value,
) -> Result<Vec<Entry<'v>>, InputError<BadInput>>
    ensures { Gives (λ entries. map entry_data entries.items) result (entries_of (view value.now)) }
{
    let read = read_entries(system.alloc(), value);
    if let Err(InputError::Refused(bad)) = &read {
        explain_refusal(system, name, value, *bad);
    }
    read
}

/// Writes what is wrong with entries that are rejected. Writes nothing if there is no memory for the text.
fn explain_refusal<S: System>(system: &S, name: &str, value: &Value, bad: BadInput) {
    if let Ok(Some(text)) = explain_input(system.alloc(), value, bad) {
        system.explain(name, text.as_str());
    }
}

fn show_text<T: Terminal>(
    alloc: Global,
    setting: Setting,
    bytes: &[u8],
    terminal: &mut T,
) -> Outcome<AppEnd, BadInput>
    ensures shown { Reaches (TextMeans bytes.now) (AreEntriesShown setting (T.observed terminal.old) (T.observed terminal.new)) result }
    ensures still { OnErr result (terminal.new ≡ terminal.old) }
{
    let Ok(text) = str::from_utf8(bytes) else {
        return Err(Stop::NotText);
    };
    let pieces = pieces_of(alloc, text)?;
    let entries = text_entries(alloc, pieces.as_slice())?;
    let borrowed = borrowed_entries(alloc, entries.as_slice())?;
    Ok(show(alloc, borrowed, setting, terminal))
}
