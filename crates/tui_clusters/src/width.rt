//! The widths of texts, in columns.

ghost use Rattle.std.specs.Prelude.{◌≡◌, ◌<◌, ◌≤◌, [], ◌∷◌, false, map, min, nat_lt, sum_by, IfSome};
ghost use Rattle.tui_clusters.specs.Shown.{clusters};
ghost use Rattle.tui_clusters.specs.Width.{columns_of, saturated, width_of};
ghost use Rattle.unicode_width.specs.Width.{char_width, str_width};

use crate::clusters::{Clusters, split_run};
use crate::plain::{high_char, is_ideograph, is_letter, is_plain_char, is_sign};
use crate::printable::printable_byte;
use unicode_width::{UnicodeWidthChar, UnicodeWidthStr};

/// Returns the width of a text in columns, cut at 65535.
#[inline(always)]
#[tactic(auto, unfolding(crate::specs::Width::width_of, crate::specs::Width::columns_of))]
pub fn cell_width(text: &str) -> u16
    ensures { result ≡ width_of text.now }
{
    if let Some(_byte) = printable_byte(text) {
        return 1;
    }
    looked_up_width(text)
}

// Never inlined, so that a printable byte costs no call.
#[inline(never)]
#[tactic(auto, unfolding(crate::specs::Width::width_of))]
fn looked_up_width(text: &str) -> u16
    ensures { result ≡ width_of text.now }
{
    if is_ideograph(text) {
        return 2;
    }
    if is_letter(text) {
        return 1;
    }
    if is_sign(text) {
        return 1;
    }
    looked_up_columns(text, false)
}

/// Returns the width of a text in columns, cut at 65535. If `cjk` is set, ambiguous characters are wide.
#[inline]
#[tactic(auto, unfolding(crate::specs::Width::columns_of))]
fn columns(text: &str, cjk: bool) -> u16
    ensures { result ≡ columns_of cjk text.now }
{
    if let Some(_byte) = printable_byte(text) {
        return 1;
    }
    looked_up_columns(text, cjk)
}

// Never inlined, so that a printable byte costs no call.
#[inline(never)]
#[tactic(auto, unfolding(crate::specs::Width::columns_of))]
fn looked_up_columns(text: &str, cjk: bool) -> u16
    ensures { result ≡ columns_of cjk text.now }
{
    if let Some(c) = high_char(text) {
        return char_columns(c, cjk);
    }
    let width = if cjk { text.width_cjk() } else { text.width() };
    width.min(u16::MAX as usize) as u16
}

/// Returns the width of a text that is one character above U+00A0.
#[inline]
fn char_columns(c: char, cjk: bool) -> u16
    requires { 0xA0 < c }
    ensures { result ≡ min (str_width cjk (c ∷ [])) 65535 }
{
    match char_width(c, cjk) {
        Some(width) => width as u16,
        None => 0,
    }
}

#[inline]
fn char_width(c: char, cjk: bool) -> Option<usize>
    ensures value { result ≡ char_width cjk c }
    ensures bound { IfSome result (λ width. width ≤ 3) }
{
    if cjk { c.width_cjk() } else { c.width() }
}

/// Returns the total width of a text's graphemes in columns, cut at 2^64 - 1.
#[inline]
pub fn text_width(text: &str, cjk: bool) -> usize
    ensures { result ≡ saturated (sum_by (columns_of cjk) (clusters text.now)) }
{
    let (run, rest) = split_run(text, text.len());
    if rest.is_empty() {
        return run.len();
    }
    run.len().saturating_add(clusters_width(rest, cjk))
}

/// The same, grapheme by grapheme. Never inlined, so that a text of printable bytes takes few steps.
#[inline(never)]
fn clusters_width(text: &str, cjk: bool) -> usize
    ensures { result ≡ saturated (sum_by (columns_of cjk) (clusters text.now)) }
{
    let mut width = 0usize;
    for cluster in Clusters::new(text) {
        width = width.saturating_add(usize::from(columns(cluster, cjk)));
    }
    width
}

/// Whether a grapheme of a text has columns.
#[inline]
pub fn has_column(text: &str) -> bool
    ensures { result ≡ nat_lt 0 (sum_by (columns_of false) (clusters text.now)) }
{
    let (first, _) = split_run(text, 1);
    !first.is_empty() || has_other_column(text)
}

/// The same for a text that does not begin with a printable byte. Never inlined, so that a text that does takes few
/// steps.
#[inline(never)]
fn has_other_column(text: &str) -> bool
    ensures { result ≡ nat_lt 0 (sum_by (columns_of false) (clusters text.now)) }
{
    if is_plain_char(text) {
        return cell_width(text) > 0;
    }
    has_wide_cluster(text)
}

/// The same, grapheme by grapheme.
fn has_wide_cluster(text: &str) -> bool
    ensures { result ≡ nat_lt 0 (sum_by (columns_of false) (clusters text.now)) }
{
    for cluster in Clusters::new(text) {
        if columns(cluster, false) > 0 {
            return true;
        }
    }
    false
}
