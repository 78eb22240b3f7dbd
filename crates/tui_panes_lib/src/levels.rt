//! How many levels a tree of panes has.

ghost use Rattle.std.specs.Prelude.{◌≡◌, nat_le};
ghost use Rattle.tui_panes_lib.specs.Levels.{levels, parts_levels};
ghost use Rattle.tui_panes_lib.specs.Pane.{pane_data, parts_of};

use crate::pane::{Pane, Part};

/// Returns whether a pane has at most `limit` levels. The recursion goes no deeper than that, for any tree.
#[cycle(levels)]
#[tactic(auto, using(crate::proofs::Depth::none_within, crate::proofs::Depth::leaf_within, crate::proofs::Depth::split_within))]
pub(crate) fn is_within_levels(pane: &Pane<'_>, limit: u8) -> bool
    ensures { result ≡ nat_le (levels (pane_data pane.now)) limit }
{
    if limit == 0 {
        return false;
    }
    match pane {
        Pane::Leaf(_) => true,
        Pane::Split { parts, .. } => are_within_levels(parts.as_slice(), limit - 1),
    }
}

/// Returns whether each of the parts has at most `limit` levels.
#[cycle(levels)]
#[tactic(auto, using(crate::proofs::Depth::within_more, crate::proofs::Depth::too_deep, crate::proofs::Depth::all_within))]
fn are_within_levels(parts: &[Part<'_>], limit: u8) -> bool
    ensures { result ≡ nat_le (parts_levels (parts_of parts.now)) limit }
{
    'parts: for part in parts {
        if !is_within_levels(&part.pane, limit) {
            return false;
        }
    }
    true
}
