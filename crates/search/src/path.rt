// The places in which a search keeps its path of decisions.
ghost use Rattle.std.specs.Prelude.{◌≡◌, ◌≤◌, length};

use crate::decision::Decision;

/// How many decisions a path has at most: 16 for each of 48 jobs, since each halves a window
/// of at most 40,001 starts.
pub const MAX_DECISIONS: usize = 768;

/// Decisions in the order in which they were made. The places past the depth are blank or stale.
// An array beside its depth: `close` promises of every place that it is blank, and an `ArrayVec` hides those past its length.
#[derive(Drop)]
pub struct Path {
    pub(crate) places: [Decision; MAX_DECISIONS],
    pub(crate) depth: usize,
    ghost fits: { depth ≤ 768 },
    ghost whole: { length places ≡ 768 },
}
