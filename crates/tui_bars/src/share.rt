//! Shares of a whole.

ghost use Rattle.std.specs.Prelude.{◌<◌, ◌≤◌};

/// The part of a whole that a gauge shows: `num` of `den`.
#[derive(Clone, Copy, Debug, PartialEq, Eq)]
pub(crate) struct Share {
    pub(crate) num: u64,
    pub(crate) den: u64,
    ghost some: { 0 < den },
    ghost part: { num ≤ den },
}
