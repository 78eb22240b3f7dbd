//! The rows of a buffer.

ghost use Rattle.std.specs.Prelude.{◌≡◌, ◌+◌, ◌<◌, ◌≤◌, ◌&&◌, ◌||◌, ℕ, IsTrue, flat_map, length, not, true};
ghost use Rattle.std.specs.List.{list_all};
ghost use Rattle.tui_io.specs.Prints.{Prints};
ghost use Rattle.tui_terminal.specs.Fitting.{are_fit};
ghost use Rattle.tui_terminal.specs.Narrow.{is_narrow};
ghost use Rattle.tui_terminal.specs.Seeing.{look_in, shown_in};
ghost use Rattle.tui_terminal.specs.Sent.{is_calm_both, is_of_pass, pass_of, shows_same};
ghost use Rattle.tui_terminal.specs.UncertainWidths.{is_new_uncertain};
ghost use Rattle.tui_terminal_model.specs.Encoding.{encoding};
ghost use Rattle.tui_terminal_laws.specs.Sending.{at_after, nothing_known, row_in_full, row_changes, send};
ghost use Rattle.tui_terminal_laws.specs.Sent.{changes, is_same, row_shown, sent};

use crate::changed::changed_end;
use crate::fitting::{emit_new_fit, is_fit_row};
use crate::narrow::{emit_all_narrow, emit_new_narrow, is_narrow_row};
use crate::seeing::{Seen, Under, see};
use crate::sending::{Spot, emit_if};
use crate::symbols::is_same_text;
use crate::target::RowTarget;
use tui_cells::Cell;
use tui_io::{Print, Sink};
use tui_terminal_laws::At;
use tui_terminal_model::KnownWidths;

/// Adds all visible cells of a row. `left` is the column of the first cell.
pub(crate) fn emit_all<K: Sink>(print: &mut Print, target: RowTarget, row: &[Cell], sink: &mut K)
    requires { (target.left + length row.now ≤ 65535) × (target.y < 65536) }
    ensures { Prints (K.observed sink.old) (K.observed sink.new) print.old print.new
        (flat_map encoding (send target.output target.y nothing_known (row_in_full target.output.widths target.left row.now))) }
{
    if is_narrow_row(target.output.widths, row) {
        emit_all_narrow(print, target, row, sink);
    } else {
        emit_mixed(print, target, row, sink);
    }
}

// Adds all visible cells of a row that may hold any symbols. Those of uncertain width come first, since a
// terminal may change the rest of the row at each of them.
fn emit_mixed<K: Sink>(print: &mut Print, target: RowTarget, row: &[Cell], sink: &mut K)
    requires { (target.left + length row.now ≤ 65535) × (target.y < 65536) }
    ensures { Prints (K.observed sink.old) (K.observed sink.new) print.old print.new
        (flat_map encoding (send target.output target.y nothing_known (row_in_full target.output.widths target.left row.now))) }
{
    let first = Pass {
        uncertain: true,
        at: At::nothing_known(),
    };
    let at = emit_pass(print, target, first, row, sink);
    let second = Pass {
        uncertain: false,
        at,
    };
    emit_pass(print, target, second, row, sink);
}

/// Adds what has changed in a row. If the cells up to the last difference are narrow, the cells after it are
/// not looked at again: most changes are a small part of a row.
pub(crate) fn emit_changes<K: Sink>(
    print: &mut Print,
    target: RowTarget,
    old: &[Cell],
    new: &[Cell],
    sink: &mut K,
)
    requires { (length old.now ≡ length new.now) × (target.left + length new.now ≤ 65535) × (target.y < 65536) }
    ensures { Prints (K.observed sink.old) (K.observed sink.new) print.old print.new
        (flat_map encoding (send target.output target.y nothing_known (row_changes target.output.widths target.left old.now new.now))) }
{
    let end = changed_end(old, new);
    let front_old = &old[..end];
    let front = &new[..end];
    if are_narrow(target.output.widths, front_old, front) {
        emit_new_narrow(print, target, front_old, front, sink);
    } else {
        emit_mixed_changes(print, target, old, new, sink);
    }
}

fn are_narrow(widths: KnownWidths, old: &[Cell], new: &[Cell]) -> bool
    ensures { result ≡ (list_all (λ c. is_narrow widths c.symbol) old.now && list_all (λ c. is_narrow widths c.symbol) new.now) }
{
    is_narrow_row(widths, old) && is_narrow_row(widths, new)
}

// Adds what has changed in a row that may hold any symbols.
fn emit_mixed_changes<K: Sink>(
    print: &mut Print,
    target: RowTarget,
    old: &[Cell],
    new: &[Cell],
    sink: &mut K,
)
    requires { (length old.now ≡ length new.now) × (target.left + length new.now ≤ 65535) × (target.y < 65536) }
    ensures { Prints (K.observed sink.old) (K.observed sink.new) print.old print.new
        (flat_map encoding (send target.output target.y nothing_known (row_changes target.output.widths target.left old.now new.now))) }
{
    if are_fit(target.output.widths, old, new) {
        emit_new_fit(print, target, old, new, sink);
    } else {
        emit_uncertain_changes(print, target, old, new, sink);
    }
}

fn are_fit(widths: KnownWidths, old: &[Cell], new: &[Cell]) -> bool
    ensures { result ≡ (are_fit widths old.now && are_fit widths new.now) }
{
    is_fit_row(widths, old) && is_fit_row(widths, new)
}

// Adds what has changed in a row that may hold symbols of uncertain width. If one appears or disappears, the
// whole row is sent.
#[inline(never)]
fn emit_uncertain_changes<K: Sink>(
    print: &mut Print,
    target: RowTarget,
    old: &[Cell],
    new: &[Cell],
    sink: &mut K,
)
    requires { (length old.now ≡ length new.now) × (target.left + length new.now ≤ 65535) × (target.y < 65536) }
    ensures { Prints (K.observed sink.old) (K.observed sink.new) print.old print.new
        (flat_map encoding (send target.output target.y nothing_known (row_changes target.output.widths target.left old.now new.now))) }
{
    if is_calm(target.output.widths, old, new) {
        emit_new(print, target, old, new, sink);
    } else {
        emit_all(print, target, new, sink);
    }
}

/// Which cells of a row are sent, and what is known of the terminal before.
#[derive(Clone, Copy)]
struct Pass {
    /// The cells with symbols of uncertain width, and not those with symbols of known width.
    uncertain: bool,
    at: At,
}

// Adds some of the cells of a row. Returns what is known of the terminal then.
fn emit_pass<K: Sink>(
    print: &mut Print,
    target: RowTarget,
    pass: Pass,
    row: &[Cell],
    sink: &mut K,
) -> At
    requires { (target.left + length row.now ≤ 65535) × (target.y < 65536) }
    ensures next { result ≡ at_after target.output.widths pass.at
        (sent target.output.widths (pass_of pass.uncertain) target.left (row_shown target.output.widths row.now) (row_shown target.output.widths row.now)) }
    ensures emitted { Prints (K.observed sink.old) (K.observed sink.new) print.old print.new (flat_map encoding (send target.output target.y pass.at
        (sent target.output.widths (pass_of pass.uncertain) target.left (row_shown target.output.widths row.now) (row_shown target.output.widths row.now)))) }
{
    let mut now = pass.at;
    let mut under = Under::none();
    'columns: for column in 0..row.len() {
        let cell = &row[column];
        let seen = see(target.output.widths, under, row.len() - column, cell);
        let wanted = is_in_pass(pass.uncertain, seen);
        let spot = Spot {
            place: column,
            columns: seen.columns,
            wanted,
        };
        now = emit_if(print, target, now, spot, seen, sink);
        under = seen.under;
    }
    now
}

// Adds the cells of a row that did not show so before.
fn emit_new<K: Sink>(print: &mut Print, target: RowTarget, old: &[Cell], new: &[Cell], sink: &mut K)
    requires { (length old.now ≡ length new.now) × (target.left + length new.now ≤ 65535) × (target.y < 65536) }
    ensures { Prints (K.observed sink.old) (K.observed sink.new) print.old print.new (flat_map encoding (send target.output target.y nothing_known
        (changes target.output.widths target.left (row_shown target.output.widths old.now) (row_shown target.output.widths new.now)))) }
{
    let mut now = At::nothing_known();
    let mut was = Under::none();
    let mut is = Under::none();
    'columns: for column in 0..new.len() {
        let cell_old = &old[column];
        let cell = &new[column];
        let before = see(target.output.widths, was, new.len() - column, cell_old);
        let seen = see(target.output.widths, is, new.len() - column, cell);
        let wanted = is_new(before, seen);
        let spot = Spot {
            place: column,
            columns: seen.columns,
            wanted,
        };
        now = emit_if(print, target, now, spot, seen, sink);
        was = before.under;
        is = seen.under;
    }
}

// Whether no symbol of uncertain width appears or disappears.
fn is_calm(widths: KnownWidths, old: &[Cell], new: &[Cell]) -> bool
    requires { (length old.now ≡ length new.now) × (length new.now < 65536) }
    ensures { (left : ℕ) → result ≡ is_calm_both widths left old.now new.now }
{
    let mut was = Under::none();
    let mut is = Under::none();
    'columns: for column in 0..new.len() {
        let cell_old = &old[column];
        let cell = &new[column];
        let before = see(widths, was, new.len() - column, cell_old);
        let seen = see(widths, is, new.len() - column, cell);
        if is_alarm(before, seen) {
            return false;
        }
        was = before.under;
        is = seen.under;
    }
    true
}

// Whether a cell shows and has a symbol of uncertain or of known width, as asked.
#[inline]
fn is_in_pass(uncertain: bool, seen: Seen<'_>) -> bool
    ensures { result ≡ (seen.entry.shows && is_of_pass uncertain seen.entry.known_width) }
{
    seen.shows && is_of_pass(uncertain, seen.known_width)
}

#[inline]
fn is_of_pass(uncertain: bool, known_width: bool) -> bool
    ensures { result ≡ is_of_pass uncertain known_width }
{
    if uncertain { !known_width } else { known_width }
}

// Whether a symbol of uncertain width appears or disappears in a column.
fn is_alarm(old: Seen<'_>, new: Seen<'_>) -> bool
    ensures { result ≡ (is_new_uncertain old.entry new.entry || is_new_uncertain new.entry old.entry) }
{
    is_new_uncertain(old, new) || is_new_uncertain(new, old)
}

// Whether a symbol of uncertain width shows that did not show so before.
fn is_new_uncertain(old: Seen<'_>, new: Seen<'_>) -> bool
    ensures { result ≡ is_new_uncertain old.entry new.entry }
{
    new.shows && !new.known_width && !is_same(old, new)
}

// Whether a cell shows that did not show so before.
#[inline]
fn is_new(old: Seen<'_>, new: Seen<'_>) -> bool
    ensures { result ≡ (new.entry.shows && not (shows_same (shown_in old.entry) (look_in new.entry))) }
{
    new.shows && !is_same(old, new)
}

#[inline]
fn is_same(old: Seen<'_>, new: Seen<'_>) -> bool
    ensures { result ≡ shows_same (shown_in old.entry) (look_in new.entry) }
{
    old.shows && is_same_look(old, new)
}

#[inline]
fn is_same_look(old: Seen<'_>, new: Seen<'_>) -> bool
    ensures { result ≡ is_same (look_in old.entry) (look_in new.entry) }
{
    is_same_text(old.symbol, new.symbol) && old.attributes == new.attributes
}
