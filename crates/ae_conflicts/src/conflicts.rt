//! Conflicts.
use ae_core::lists::List;

/// Why assumed literals can't hold together. A literal is named by its place, a step by its number; each step rests on assumed literals.
#[derive(Drop)]
pub enum Conflict {
    /// The literal says that two terms differ, and the step that they are equal.
    Differ {
        literal: usize,
        step: usize,
    },
    /// One literal says that a predicate holds of some arguments, the other that it doesn't hold of some; the steps say that these are equal, one
    /// by one.
    Opposed {
        positive: usize,
        negative: usize,
        steps: List<usize>,
    },
    /// The step says that two different constructors are equal.
    Mixed {
        step: usize,
    },
    /// The step says that two numbers are equal that differ by a number other than 0.
    Constant {
        step: usize,
    },
    /// The step says that two integers are equal, and no integers make it so: a common divisor of the factors doesn't divide the constant.
    Unsolvable {
        step: usize,
    },
}
