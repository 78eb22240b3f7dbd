//! The grapheme clusters of a text.

ghost use Rattle.std.specs.Prelude.{◌≡◌, ◌+◌, ◌<◌, ◌≤◌, ◌++◌, length, map, true};
ghost use Rattle.std.specs.Iterator.{item_count, YieldsFirstBy};
ghost use Rattle.std.specs.List.{list_all};
ghost use Rattle.tui_clusters.specs.Shown.{clusters, one_byte};
ghost use Rattle.tui_clusters.specs.Printable.{is_printable};
ghost use Rattle.tui_clusters.specs.Plain.{IsPlainFirst, IsSeam};
ghost use Rattle.unicode_segmentation.specs.Grapheme.{graphemes};

use crate::blank::has_control;
use crate::plain::{
    is_plain, is_plain_char, is_printable_first, is_sign_first, known_len, run_len, split_first,
};
use crate::printable::starts_printable;
use unicode_segmentation::{Graphemes, UnicodeSegmentation};

/// The grapheme clusters of one text, without those that hold a control character. Between two
/// plain characters there is always a boundary, so a text of such characters needs no tables.
#[derive(Drop)]
pub struct Clusters<'a> {
    /// The clusters of the current part, if there is one.
    inner: Option<Graphemes<'a>>,
    /// The text after that part.
    rest: &'a str,
}

impl<'a> Clusters<'a> {
    ghost use Rattle.std.specs.List.{list_all};
    ghost use Rattle.std.specs.Prelude.{[], ◌∷◌, false, map};
    ghost use Rattle.tui_clusters.specs.Clusters.{clusters_left, part_left};
    ghost use Rattle.tui_clusters.specs.Shown.{clusters, one_byte};
    ghost use Rattle.tui_clusters.specs.Printable.{is_printable};

    /// The clusters of the text.
    #[inline]
    pub fn new(text: &'a str) -> Clusters<'a>
        ensures { clusters_left result ≡ clusters text.now }
    {
        Clusters {
            inner: None,
            rest: text,
        }
    }

    /// Returns the printable bytes that come next, at most `room`. Each of them is a cluster. Returns none while the
    /// current part has clusters left.
    #[inline]
    pub fn next_run(&mut self, room: usize) -> &'a [u8]
        ensures clusters { clusters_left self.old ≡ map one_byte result.now ++ clusters_left self.new }
        ensures printable { list_all is_printable result.now ≡ true }
        ensures within { length result.now ≤ room }
    {
        if !starts_printable(self.rest) || (self.inner.is_some() && self.is_in_part()) {
            return &[];
        }
        let (run, rest) = split_run(self.rest, room);
        self.rest = rest;
        run
    }

    /// Whether the current part has clusters left. Never inlined, since few texts have such parts.
    #[inline(never)]
    fn is_in_part(&self) -> bool
        ensures { result ≡ false → part_left self.now ≡ [] }
    {
        match &self.inner {
            None => false,
            Some(part) => match part.clone() {
                Ok(mut left) => left.next().is_some(),
                Err(_) => true,
            },
        }
    }

    /// Returns the next cluster of the current part, and drops the part if it has none.
    #[inline(always)]
    fn next_in_part(&mut self) -> Option<&'a str>
        ensures found { YieldsFirstBy (λ piece. piece.now) part_left self.old result self.new }
        ensures rest { self.new.rest.now ≡ self.old.rest.now }
    {
        let found = match &mut self.inner {
            None => return None,
            Some(part) => part.next(),
        };
        if found.is_none() {
            self.inner = None;
        }
        found
    }

    /// Takes the first cluster of the text after the current part, if that part has no clusters left.
    #[inline(always)]
    fn take_first(&mut self, len: usize) -> &'a str
        requires apart { part_left self.old ≡ [] }
        requires first { IsPlainFirst self.old.rest.now len }
        ensures { clusters_left self.old ≡ result.now ∷ clusters_left self.new }
    {
        let (cluster, following) = self.rest.split_at(len);
        self.rest = following;
        cluster
    }

    /// Returns the next cluster, whatever it is.
    #[inline(always)]
    fn next_any(&mut self) -> Option<&'a str>
        ensures { YieldsFirstBy (λ piece. piece.now) clusters_left self.old result self.new }
    {
        'clusters: loop {
            if let Some(cluster) = self.next_in_part() {
                if !has_control(cluster) {
                    return Some(cluster);
                }
            } else if self.rest.is_empty() {
                return None;
            } else {
                // After a part has ended, most texts continue with printable bytes.
                if is_printable_first(self.rest) {
                    return Some(self.take_first(1));
                }
                let (part, rest) = first_part(self.rest);
                self.rest = rest;
                if is_plain_char(part) {
                    return Some(part);
                }
                self.inner = Some(part.graphemes(true));
            }
        }
    }
}

impl<'a> Iterator for Clusters<'a> {
    ghost use Rattle.tui_clusters.specs.Clusters.{clusters_left};

    type Item = &'a str;

    ghost next_gives = { YieldsFirstBy (λ piece. piece.now) clusters_left };

    ghost remaining = { item_count clusters_left };

    #[inline(always)]
    fn next(&mut self) -> Option<&'a str> {
        if self.inner.is_none() && !self.rest.is_empty() {
            if is_printable_first(self.rest) {
                return Some(self.take_first(1));
            }
            let known = known_len(self.rest);
            if known > 0 {
                return Some(self.take_first(known));
            }
        }
        self.next_any()
    }
}

/// Splits a text into the printable bytes that it begins with, at most `room`, and the rest. Each of these bytes is a
/// cluster.
#[inline]
pub fn split_run(text: &str, room: usize) -> (&[u8], &str)
    ensures clusters { clusters text.now ≡ map one_byte result.0.now ++ clusters result.1.now }
    ensures printable { list_all is_printable result.0.now ≡ true }
    ensures within { length result.0.now ≤ room }
{
    let (run, rest) = text.split_at(run_len(text, room));
    (run.as_bytes(), rest)
}

/// Splits off a text's first part, whose clusters are not joined with those of the rest.
#[inline]
fn first_part(text: &str) -> (&str, &str)
    requires { 0 < length text.now }
    ensures clusters { graphemes true text.now ≡ graphemes true result.0.now ++ graphemes true result.1.now }
    ensures whole { length text.now ≡ length result.0.now + length result.1.now }
    ensures some { 0 < length result.0.now }
{
    text.split_at(part_len(text))
}

/// Returns where the text's first part ends: between two plain characters, or else at the end of the text. Never
/// inlined, so that characters that their first bytes identify cost no call.
#[inline(never)]
fn part_len(text: &str) -> usize
    requires { 0 < length text.now }
    ensures some { 0 < result }
    ensures within { result ≤ length text.now }
    ensures seam { result < length text.now → IsSeam text.now result }
{
    if is_sign_first(text) {
        return 3;
    }
    let mut rest = text;
    let mut plain = false;
    'chars: while let Some((c, following)) = split_first(rest) {
        let is_next = is_plain(c);
        if plain && is_next {
            return text.len() - rest.len();
        }
        plain = is_next;
        rest = following;
    }
    text.len()
}
