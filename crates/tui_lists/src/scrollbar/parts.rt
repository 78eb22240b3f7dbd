//! The parts of a scrollbar's track.

ghost use Rattle.std.specs.Prelude.{◌≡◌, ◌<◌, ◌^◌};
ghost use Rattle.tui_lists.specs.TrackParts.{parts_of, rounded};

/// The numbers of cells of a track: before the thumb, of the thumb, and after it.
#[derive(Clone, Copy, Debug, PartialEq, Eq)]
pub(crate) struct TrackParts {
    pub(crate) start: u16,
    pub(crate) thumb: u16,
    pub(crate) end: u16,
}

/// Returns `a / b`, rounded to the nearest whole number. A half is rounded upwards.
fn rounded(a: u128, b: u128) -> u128
    requires some { 0 < b }
    requires small { (a < 2 ^ 96) × (b < 2 ^ 96) }
    ensures { result ≡ rounded a b }
{
    (a + b / 2) / b
}

impl TrackParts {
    /// Returns the parts of a track for a viewport over a content at a position. Computes the products in 128 bits.
    #[tactic(auto, unfolding(crate::specs::TrackParts::parts_of))]
    pub(crate) fn new(track: u16, viewport: usize, content: usize, position: usize) -> TrackParts
        requires track { 0 < track }
        requires viewport { 0 < viewport }
        requires content { 0 < content }
        ensures { result ≡ parts_of track viewport content position }
    {
        let wide = track as u128;
        let last = content - 1;
        let whole = last as u128 + viewport as u128;
        let thumb = rounded(viewport as u128 * wide, whole).max(1).min(wide) as u16;
        let before = rounded(position.min(last) as u128 * wide, whole);
        let start = before.min((track - thumb) as u128) as u16;
        TrackParts {
            start,
            thumb,
            end: track - start - thumb,
        }
    }
}
