//! Which symbols have a known width.

/// Which symbols every terminal of this kind draws in the columns that are counted for them. Any other
/// symbol is sent too, if it may be. However wide it is drawn, no cell with a symbol of known width is
/// wrong because of it.
#[derive(Clone, Copy, Debug, PartialEq, Eq)]
pub enum KnownWidths {
    /// Symbols that have long been in Unicode and join no other: ASCII, Latin, Greek, Cyrillic, arrows, lines
    /// and blocks, Braille, kana, CJK ideographs, Hangul syllables and fullwidth forms.
    Common,
    /// ASCII only. For terminals that draw ambiguous characters, such as lines, in two columns.
    Ascii,
}
