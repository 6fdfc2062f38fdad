//! Bounds on a search.

/// Bounds on the work for one goal.
#[derive(Clone, Copy, Debug, PartialEq, Eq)]
pub struct Limits {
    /// How many lines of a journal may be counted, from 1 to 1,000,000.
    pub steps: usize,
    /// Terms below this generation are matched; from 0 to 20.
    pub generations: u32,
}
