//! Pairs of sorts, and why they have no unifier.

ghost use Rattle.std.specs.Prelude.{◌≡◌};
ghost use Rattle.ae_types.specs.declared.pairs.Clash.TheVariants.{Memory};

use ae_core::terms::Sort;
use std::alloc::AllocError;

/// Two sorts that are to be equal. `Sort::Var` is the unknown.
#[derive(Drop)]
pub struct SortPair {
    pub left: Sort,
    pub right: Sort,
}

/// Why sorts can't be made equal.
#[derive(Drop)]
pub enum Clash {
    /// These two sorts would have to be equal, and neither is a variable: their heads or their numbers of arguments
    /// differ. They are parts of the given sorts.
    Differ { left: Sort, right: Sort },
    /// This variable and this sort would have to be equal, and the variable occurs in the sort, which isn't the variable.
    Cycle { var: usize, sort: Sort },
    /// There was no memory.
    Memory(AllocError),
}

impl From<AllocError> for Clash {
    ghost from_gives = { λ error clash. clash ≡ Memory error };

    fn from(error: AllocError) -> Clash {
        Clash::Memory(error)
    }
}
