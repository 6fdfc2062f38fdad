//! The derivation of what a step states.
ghost use Rattle.std.specs.Prelude.{◌≡◌, ◌<◌, ◌++◌, [], ◌∷◌, ℕ, true, List, length, map, slice_get, Some, IfOk};
ghost use Rattle.ae_core.specs.declared.formulas.Lit.{Lit as LitView};
ghost use Rattle.std.specs.List.{AllByRecursion};
ghost use Rattle.ae_rules.specs.Built.{IsBuiltEquation};
ghost use Rattle.ae_rules.specs.Derivations.{clause_ok};
ghost use Rattle.ae_rules.specs.Lines.{AllAllowed, fact_ok};
ghost use Rattle.ae_store.specs.Shapes.{shapes};
ghost use Rattle.ae_store.specs.Terms.{terms};
ghost use Rattle.ae_just.specs.declared.steps.Step.{Step};
ghost use Rattle.ae_just.specs.Steps.{fact_of, Fits};
ghost use Rattle.ae_pmap.specs.Forest.{present};
ghost use Rattle.ae_theory.specs.Noting.{IsBlockOf};
ghost use Rattle.ae_conflicts.specs.declared.assumed.Assumed.{Assumed as AssumedView};
ghost use Rattle.ae_conflicts.specs.Saying.{tagged, IsAssumedAt, RestsOnAssumed, EndsWith};
ghost use Rattle.ae_conflicts.specs.Inner.Joining.{IsJoined};

use crate::assumed::Assumed;
use ae_core::copies::copy_lit;
use ae_core::formulas::Lit;
use ae_core::lists::List;
use ae_core::proofs::Deriv;
use ae_derivations::joining::joined;
use ae_just::justs::Justs;
use ae_pmap::Pmap;
use ae_store::store::Store;
use ae_theory::theory::Derived;
use std::alloc::{AllocError, Global};

/// Lines that derive what a step states from the literals that it rests on, and the tags of these.
pub fn derived(store: &Store, justs: &Justs, step: usize) -> Result<Derived, AllocError>
    requires step { step < length justs.now }
    requires fits { Fits store.now.signature (terms (shapes store.now.nodes)) justs.now }
    ensures allowed { IfOk result (λ d. AllAllowed store.now.signature (fact_ok store.now.signature) d.deriv.hyps [] d.deriv.lines) }
    ensures sorted { IfOk result (λ d. clause_ok store.now.signature d.deriv.hyps ≡ true) }
    ensures built { IfOk result (λ d. AllByRecursion (IsBuiltEquation store.now.signature (terms (shapes store.now.nodes))) d.deriv.lines) }
    ensures some { IfOk result (λ d. 0 < length d.deriv.lines) }
    ensures stated { IfOk result (λ d. (s : Step) → slice_get justs.now step ≡ Some s → EndsWith d.deriv.lines (fact_of (terms (shapes store.now.nodes)) s)) }
    ensures tags { IfOk result (λ d. (held : List (ℕ × AssumedView)) → RestsOnAssumed (terms (shapes store.now.nodes)) justs.now held step → IsBlockOf (tagged held) d.deriv.hyps d.tags) }
{
    let tags = justs.literals_of(step)?;
    let deriv = justs.block_of(store, step)?;
    Ok(Derived { deriv, tags })
}

/// A literal with its tag, and no lines.
fn one(alloc: Global, lit: &Lit, tag: usize) -> Result<Derived, AllocError>
    ensures hyps { IfOk result (λ d. d.deriv.hyps ≡ lit.now ∷ []) }
    ensures tags { IfOk result (λ d. d.tags ≡ tag ∷ []) }
    ensures lines { IfOk result (λ d. d.deriv.lines ≡ []) }
{
    let mut tags = List::new(alloc);
    tags.push(tag)?;
    let mut hyps = List::new(alloc);
    hyps.push(copy_lit(alloc, lit)?)?;
    let lines = List::new(alloc);
    Ok(Derived {
        deriv: Deriv { hyps, lines },
        tags,
    })
}

/// No literals and no lines.
fn nothing(alloc: Global) -> Derived
    ensures { length result.deriv.lines ≡ 0 }
{
    Derived {
        deriv: Deriv {
            hyps: List::new(alloc),
            lines: List::new(alloc),
        },
        tags: List::new(alloc),
    }
}

/// An assumed literal alone.
pub(crate) fn alone(
    alloc: Global,
    assumed: &Pmap<Assumed>,
    place: usize,
) -> Result<Derived, AllocError>
    requires there { (lit : LitView) × (tag : ℕ) × IsAssumedAt (present assumed.now) place lit tag }
    ensures hyps { IfOk result (λ d. (lit : LitView) (tag : ℕ) → IsAssumedAt (present assumed.now) place lit tag → d.deriv.hyps ≡ lit ∷ []) }
    ensures tags { IfOk result (λ d. (lit : LitView) (tag : ℕ) → IsAssumedAt (present assumed.now) place lit tag → d.tags ≡ tag ∷ []) }
    ensures lines { IfOk result (λ d. d.deriv.lines ≡ []) }
{
    match assumed.get(place) {
        Some(entry) => one(alloc, &entry.lit, entry.tag),
        None => Ok(nothing(alloc)),
    }
}

/// A derivation behind another, and the tags of both.
pub(crate) fn both(alloc: Global, first: Derived, second: Derived) -> Result<Derived, AllocError>
    ensures { IfOk result (λ d. IsJoined first second d) }
{
    let Derived { deriv, mut tags } = first;
    let Derived {
        deriv: behind,
        tags: more,
    } = second;
    tags.append(more)?;
    let deriv = joined(alloc, deriv, &behind)?;
    Ok(Derived { deriv, tags })
}
