//! The blocks of conflicts.
ghost use Rattle.std.specs.Prelude.{◌≡◌, ◌<◌, ℕ, true, List, length, IfOk};
ghost use Rattle.std.specs.List.{AllByRecursion};
ghost use Rattle.ae_rules.specs.Built.{IsBuiltEquation};
ghost use Rattle.ae_rules.specs.Derivations.{IsContradictory, clause_ok};
ghost use Rattle.ae_store.specs.Shapes.{shapes};
ghost use Rattle.ae_store.specs.Terms.{terms};
ghost use Rattle.ae_just.specs.Steps.{Fits};
ghost use Rattle.ae_pmap.specs.Forest.{present};
ghost use Rattle.ae_theory.specs.Noting.{IsBlockOf};
ghost use Rattle.ae_conflicts.specs.declared.assumed.Assumed.{Assumed as AssumedView};
ghost use Rattle.ae_conflicts.specs.Saying.{tagged};
ghost use Rattle.ae_conflicts.specs.Conflicting.{IsDenied, AreOpposed, AreMixed, IsConstant, IsUnsolvable, IsConflict};
ghost use Rattle.ae_conflicts.specs.Inner.Joining.{IsExplained};

use crate::assumed::Assumed;
use crate::conflicts::Conflict;
use crate::gathering::{Gathered, gather_all};
use crate::reasons::{alone, both, derived};
use ae_core::proofs::{Block, Ending};
use ae_just::justs::Justs;
use ae_pmap::Pmap;
use ae_store::store::Store;
use ae_theory::theory::{Derived, Explained};
use std::alloc::{AllocError, Global};

/// The block of a derivation with an ending.
fn ended(derived: Derived, ending: Ending) -> Explained
    ensures { result ≡ record { block = record { deriv = derived.deriv; ending = ending }; tags = derived.tags } }
{
    let Derived { deriv, tags } = derived;
    Explained {
        block: Block { deriv, ending },
        tags,
    }
}

/// The block of a step that says that two terms are equal which an assumed literal says to differ.
fn denied(
    alloc: Global,
    store: &Store,
    justs: &Justs,
    assumed: &Pmap<Assumed>,
    literal: usize,
    step: usize,
) -> Result<Explained, AllocError>
    requires fits { Fits store.now.signature (terms (shapes store.now.nodes)) justs.now }
    requires own { IsDenied (terms (shapes store.now.nodes)) justs.now (present assumed.now) literal step }
    ensures { IfOk result (λ e. IsExplained store.now.signature (terms (shapes store.now.nodes)) (present assumed.now) e) }
{
    let first = derived(store, justs, step)?;
    let line = first.deriv.lines.len() - 1;
    let hyp = first.deriv.hyps.len();
    let second = alone(alloc, assumed, literal)?;
    let all = both(alloc, first, second)?;
    Ok(ended(all, Ending::Neq { line, hyp }))
}

/// The block of steps that say that the arguments are equal of which one assumed literal says a predicate, and another one its negation.
fn opposed(
    alloc: Global,
    store: &Store,
    justs: &Justs,
    assumed: &Pmap<Assumed>,
    positive: usize,
    negative: usize,
    steps: &[usize],
) -> Result<Explained, AllocError>
    requires fits { Fits store.now.signature (terms (shapes store.now.nodes)) justs.now }
    requires own { AreOpposed store.now.signature (terms (shapes store.now.nodes)) justs.now (present assumed.now) positive negative steps.now }
    ensures { IfOk result (λ e. IsExplained store.now.signature (terms (shapes store.now.nodes)) (present assumed.now) e) }
{
    let gathered = gather_all(alloc, store, justs, assumed, positive, negative, steps)?;
    let Gathered { derived, places } = gathered;
    Ok(ended(
        derived,
        Ending::Pred {
            yes: 0,
            no: 1,
            lines: places,
        },
    ))
}

/// The block of a step that says that two different constructors are equal.
fn mixed(store: &Store, justs: &Justs, step: usize) -> Result<Explained, AllocError>
    requires step { step < length justs.now }
    requires fits { Fits store.now.signature (terms (shapes store.now.nodes)) justs.now }
    ensures { IfOk result (λ e. (held : List (ℕ × AssumedView)) → AreMixed store.now.signature (terms (shapes store.now.nodes)) justs.now held step → IsExplained store.now.signature (terms (shapes store.now.nodes)) held e) }
{
    let all = derived(store, justs, step)?;
    let line = all.deriv.lines.len() - 1;
    Ok(ended(all, Ending::Clash { line }))
}

/// The block of a step that says that two numbers are equal which differ by a number other than 0.
fn constant(store: &Store, justs: &Justs, step: usize) -> Result<Explained, AllocError>
    requires step { step < length justs.now }
    requires fits { Fits store.now.signature (terms (shapes store.now.nodes)) justs.now }
    ensures { IfOk result (λ e. (held : List (ℕ × AssumedView)) → IsConstant store.now.signature (terms (shapes store.now.nodes)) justs.now held step → IsExplained store.now.signature (terms (shapes store.now.nodes)) held e) }
{
    let all = derived(store, justs, step)?;
    let line = all.deriv.lines.len() - 1;
    Ok(ended(all, Ending::Const { line }))
}

/// The block of a step that says that two integers are equal which no integers make equal.
fn unsolvable(store: &Store, justs: &Justs, step: usize) -> Result<Explained, AllocError>
    requires step { step < length justs.now }
    requires fits { Fits store.now.signature (terms (shapes store.now.nodes)) justs.now }
    ensures { IfOk result (λ e. (held : List (ℕ × AssumedView)) → IsUnsolvable store.now.signature (terms (shapes store.now.nodes)) justs.now held step → IsExplained store.now.signature (terms (shapes store.now.nodes)) held e) }
{
    let all = derived(store, justs, step)?;
    let line = all.deriv.lines.len() - 1;
    Ok(ended(all, Ending::Gcd { line }))
}

/// The block of any conflict.
fn explained_by(
    alloc: Global,
    store: &Store,
    justs: &Justs,
    assumed: &Pmap<Assumed>,
    conflict: &Conflict,
) -> Result<Explained, AllocError>
    requires fits { Fits store.now.signature (terms (shapes store.now.nodes)) justs.now }
    requires own { IsConflict store.now.signature (terms (shapes store.now.nodes)) justs.now (present assumed.now) conflict.now }
    ensures { IfOk result (λ e. IsExplained store.now.signature (terms (shapes store.now.nodes)) (present assumed.now) e) }
{
    match conflict {
        Conflict::Differ { literal, step } => {
            denied(alloc, store, justs, assumed, *literal, *step)
        }
        Conflict::Opposed {
            positive,
            negative,
            steps,
        } => opposed(
            alloc,
            store,
            justs,
            assumed,
            *positive,
            *negative,
            steps.as_slice(),
        ),
        Conflict::Mixed { step } => mixed(store, justs, *step),
        Conflict::Constant { step } => constant(store, justs, *step),
        Conflict::Unsolvable { step } => unsolvable(store, justs, *step),
    }
}

/// Why the assumed literals of a conflict can't hold together: a block whose hypotheses they are, and their tags. It has the lines of the conflict's
/// steps, which are equations of terms built of the names, and looks at no other steps than those that these rest on.
pub fn explained(
    alloc: Global,
    store: &Store,
    justs: &Justs,
    assumed: &Pmap<Assumed>,
    conflict: &Conflict,
) -> Result<Explained, AllocError>
    requires fits { Fits store.now.signature (terms (shapes store.now.nodes)) justs.now }
    requires own { IsConflict store.now.signature (terms (shapes store.now.nodes)) justs.now (present assumed.now) conflict.now }
    ensures contradictory { IfOk result (λ e. IsContradictory store.now.signature e.block) }
    ensures sorted { IfOk result (λ e. clause_ok store.now.signature e.block.deriv.hyps ≡ true) }
    ensures tags { IfOk result (λ e. IsBlockOf (tagged (present assumed.now)) e.block.deriv.hyps e.tags) }
    ensures built { IfOk result (λ e. AllByRecursion (IsBuiltEquation store.now.signature (terms (shapes store.now.nodes))) e.block.deriv.lines) }
{
    explained_by(alloc, store, justs, assumed, conflict)
}
