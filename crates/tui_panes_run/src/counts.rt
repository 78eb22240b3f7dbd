//! Counts of the panes that were read.

ghost use Rattle.std.specs.Prelude.{◌<◌, ◌≤◌};

/// The most panes that a tree may have.
pub(crate) const MOST_PANES: usize = 256;

/// How many panes were read, and how many of them are leaves. These are also the numbers of the next pane and of the
/// next leaf.
#[derive(Clone, Copy)]
pub(crate) struct Counts {
    pub(crate) panes: usize,
    pub(crate) leaves: usize,
    ghost few: { leaves ≤ panes },
    ghost most: { panes ≤ 256 },
}

impl Counts {
    ghost use Rattle.std.specs.Prelude.{◌≡◌};
    ghost use Rattle.tui_panes_run.specs.Counts.{counts_data, no_panes, with_leaf, with_split};

    /// Returns the counts before the first pane.
    pub(crate) fn none() -> Counts
        ensures { counts_data result ≡ no_panes }
    {
        Counts {
            panes: 0,
            leaves: 0,
        }
    }

    /// Returns the counts with one more leaf.
    pub(crate) fn with_leaf(self) -> Counts
        requires { self.panes < 256 }
        ensures { counts_data result ≡ with_leaf (counts_data self) }
    {
        Counts {
            panes: self.panes + 1,
            leaves: self.leaves + 1,
        }
    }

    /// Returns the counts with one more split.
    pub(crate) fn with_split(self) -> Counts
        requires { self.panes < 256 }
        ensures { counts_data result ≡ with_split (counts_data self) }
    {
        Counts {
            panes: self.panes + 1,
            leaves: self.leaves,
        }
    }
}
