//! Terms entered at a generation.
ghost use Rattle.std.specs.Prelude.{◌≡◌, ◌∷◌, [], true, OnOk};
ghost use Rattle.ae_core.specs.declared.terms.Head.TheVariants.{Symbol};
ghost use Rattle.ae_core.specs.declared.terms.Term.{Apply};
ghost use Rattle.ae_store.specs.Names.{enterable};
ghost use Rattle.ae_ages.specs.Interned.{IsInterned};

use ae_core::copies::{copy_sorts, copy_terms};
use ae_core::problems::Signature;
use ae_core::terms::{Head, Sort, Term};
use ae_store::store::Store;
use std::alloc::{AllocError, Global};

/// Enters a term.
pub fn intern_term(
    store: &mut Store,
    signature: &Signature,
    term: &Term,
    generation: u32,
) -> Result<(), AllocError>
    requires same { signature.now ≡ store.old.signature }
    requires known { enterable signature.now term.now ≡ true }
    ensures { OnOk result (IsInterned generation store.old store.new (term.now ∷ [])) }
{
    store.intern(signature, term, generation)?;
    let _count = store.len();
    Ok(())
}

/// Enters two terms.
pub fn intern_both(
    store: &mut Store,
    signature: &Signature,
    left: &Term,
    right: &Term,
    generation: u32,
) -> Result<(), AllocError>
    requires same { signature.now ≡ store.old.signature }
    requires left { enterable signature.now left.now ≡ true }
    requires right { enterable signature.now right.now ≡ true }
    ensures { OnOk result (IsInterned generation store.old store.new (left.now ∷ right.now ∷ [])) }
{
    intern_term(store, signature, left, generation)?;
    intern_term(store, signature, right, generation)
}

/// Enters a predicate's application.
pub fn intern_application(
    alloc: Global,
    store: &mut Store,
    signature: &Signature,
    symbol: usize,
    sorts: &[Sort],
    args: &[Term],
    generation: u32,
) -> Result<(), AllocError>
    requires same { signature.now ≡ store.old.signature }
    requires known { enterable signature.now (Apply (Symbol symbol) sorts.now args.now) ≡ true }
    ensures { OnOk result (IsInterned generation store.old store.new (Apply (Symbol symbol) sorts.now args.now ∷ [])) }
{
    let term = Term::Apply {
        head: Head::Symbol(symbol),
        sorts: copy_sorts(alloc, sorts)?,
        args: copy_terms(alloc, args)?,
    };
    intern_term(store, signature, &term, generation)
}
