//! What is held, and what is held at first.
ghost use Rattle.std.specs.Prelude.{◌≡◌, ℕ, [], None, IfOk};
ghost use Rattle.ae_monoid.specs.Rules.{rule_at};
ghost use Rattle.ae_store.specs.Stores.{Stored};
ghost use Rattle.ae_equations.specs.Queued.{waiting};
ghost use Rattle.ae_state.specs.Names.{assumed_in};
ghost use Rattle.ae_state.specs.Right.{IsRight};
ghost use Rattle.ae_state.specs.Fitting.{FitsStore};
ghost use Rattle.ae_state.specs.Stepping.{IsInStep};
ghost use Rattle.ae_state.specs.Inner.Empty.{IsEmpty};

use ae_conflicts::{Assumed, Conflict};
use ae_core::lists::List;
use ae_core::problems::Signature;
use ae_equations::{Equations, Shared as EquationsShared};
use ae_just::justs::Justs;
use ae_literals::Said;
use ae_pmap::{Pmap, Version};
use ae_store::nodes::Shape;
use ae_store::signatures::copy_signature;
use ae_value_table::{Shared as ValuesShared, Values};
use std::alloc::{AllocError, Global};

/// What is held of the names of a store and of assumed literals. Names, steps and conflicts only grow; all else stands in maps of which each earlier
/// version can come back.
#[derive(Drop)]
pub struct Holding {
    pub signature: Signature,
    /// What the store had at each name that ever came.
    pub shapes: List<Shape>,
    pub justs: Justs,
    pub values: Values,
    pub equations: Equations,
    /// The assumed literals, at the places below `next`.
    pub assumed: Pmap<Assumed>,
    /// What each of them says of the names.
    pub said: Pmap<Said>,
    pub next: usize,
    pub conflicts: List<Conflict>,
}

/// A mark of what is held, for `Holding::restore`.
#[derive(Clone, Copy)]
pub struct Mark {
    pub(crate) values: ValuesShared,
    pub(crate) equations: EquationsShared,
    pub(crate) assumed: Version,
    pub(crate) said: Version,
    pub(crate) next: usize,
}

/// Nothing is held. It takes no memory.
fn empty(alloc: Global, signature: Signature) -> Holding
    ensures empty { IsEmpty result }
    ensures signature { result.signature ≡ signature }
{
    Holding {
        signature,
        shapes: List::new(alloc),
        justs: Justs::new(alloc),
        values: Values::new(alloc),
        equations: Equations::new(alloc),
        assumed: Pmap::new(alloc),
        said: Pmap::new(alloc),
        next: 0,
        conflicts: List::new(alloc),
    }
}

impl Holding {
    /// No name, and nothing assumed.
    pub fn new(alloc: Global, signature: &Signature) -> Result<Holding, AllocError>
        ensures signature { IfOk result (λ o. o.signature ≡ signature.now) }
        ensures assumed { IfOk result (λ o. assumed_in o ≡ []) }
        ensures right { IfOk result IsRight }
        // It fits each store of the signature.
        ensures fits { IfOk result (λ o. (s : Stored) → s.signature ≡ signature.now → FitsStore o s) }
        ensures step { IfOk result (λ o. IsInStep o []) }
        // No name has a value, no rule is held, and no equation waits.
        ensures names { IfOk result (λ o. o.values.taken ≡ 0) }
        ensures rules { IfOk result (λ o. (n : ℕ) → rule_at o.equations.rules n ≡ None) }
        ensures waiting { IfOk result (λ o. waiting o.equations.queue ≡ []) }
    {
        let copy = copy_signature(alloc, signature)?;
        Ok(empty(alloc, copy))
    }
}
