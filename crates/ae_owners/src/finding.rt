//! The owners of a search: all axioms with type variables, and the universal literals that have stood so far.
ghost use Rattle.std.specs.Prelude.{◌≡◌, ◌+◌, ℕ, true, Some, IfOk, OnOk, MatchBool, MatchOption, slice_get};
ghost use Rattle.std.specs.List.{AllByRecursion};
ghost use Rattle.ae_core.specs.declared.formulas.Lit.{Lit};
ghost use Rattle.ae_explain.specs.declared.trail.Assigned.{Assigned};
ghost use Rattle.ae_journal.specs.States.{Pattern, of_literal, of_axiom, pattern_of, is_universal as universal};
ghost use Rattle.ae_owners.specs.Owners.{AreOwnersApart, HasOwner, IsOwnerAt, IsOwnerIn, MoreOwners, owner_of};
ghost use Rattle.ae_owners.specs.Inner.Places.{AreAxiomsBelow};
ghost use Rattle.ae_owners.specs.declared.owners.Owner.{Owner};
ghost use Rattle.ae_core.specs.declared.problems.Problem.{Problem};

use crate::owners::{Owner, axiom_owner, is_universal, literal_owner};
use ae_core::equality::same_formula;
use ae_core::formulas::{Formula, Lit};
use ae_core::lists::List;
use ae_core::problems::{Problem, Signature};
use ae_explain::Assigned;
use std::alloc::{AllocError, Global};

/// Whether a literal has this sign and this formula.
pub fn is_signed(positive: bool, formula: &Formula, lit: &Lit) -> bool
    ensures { MatchBool result (lit.now ≡ record { positive = positive; formula = formula.now }) (¬ (lit.now ≡ record { positive = positive; formula = formula.now })) }
{
    if positive != lit.positive {
        return false;
    }
    same_formula(formula, &lit.formula)
}

/// Whether an owner is this literal.
fn is_literal(owner: &Owner, lit: &Lit) -> bool
    ensures { MatchBool result (owner_of owner.now ≡ of_literal lit.now) (¬ (owner_of owner.now ≡ of_literal lit.now)) }
{
    match owner.place {
        Some(_place) => false,
        None => is_signed(owner.positive, owner.formula.get(), lit),
    }
}

/// The number of a literal among the owners.
pub fn find(owners: &[Owner], lit: &Lit) -> Option<usize>
    ensures { MatchOption result (¬ HasOwner owners.now (of_literal lit.now)) (λ k. IsOwnerAt owners.now k (of_literal lit.now)) }
{
    for number in 0..owners.len() {
        if is_literal(&owners[number], lit) {
            return Some(number);
        }
    }
    None
}

/// Adds the axiom at a place, where it is one before the goal and has type variables.
fn add_axiom(
    alloc: Global,
    problem: &Problem,
    goal: usize,
    place: usize,
    owners: &mut List<Owner>,
) -> Result<(), AllocError>
    requires before { AreAxiomsBelow place owners.old }
    ensures more { OnOk result (MoreOwners (IsOwnerIn problem.now goal) owners.old owners.new) }
    ensures apart { OnOk result (AreOwnersApart owners.old → AreOwnersApart owners.new) }
    ensures next { OnOk result (AreAxiomsBelow (place + 1) owners.new) }
    ensures own { OnOk result ((q : Pattern) → pattern_of problem.now goal (of_axiom place) ≡ Some q → HasOwner owners.new (of_axiom place)) }
{
    match axiom_owner(alloc, problem, goal, place)? {
        None => Ok(()),
        Some(owner) => owners.push(owner),
    }
}

/// The axioms before the goal that have type variables.
pub fn axiom_owners(
    alloc: Global,
    problem: &Problem,
    goal: usize,
) -> Result<List<Owner>, AllocError>
    ensures right { IfOk result (AllByRecursion (IsOwnerIn problem.now goal)) }
    ensures all { IfOk result (λ os. (k : ℕ) (q : Pattern) → pattern_of problem.now goal (of_axiom k) ≡ Some q → HasOwner os (of_axiom k)) }
    ensures apart { IfOk result AreOwnersApart }
{
    let mut owners = List::new(alloc);
    for place in 0..goal {
        add_axiom(alloc, problem, goal, place, &mut owners)?;
    }
    Ok(owners)
}

/// Adds a literal, where it is universal and isn't there.
fn add_literal(
    alloc: Global,
    signature: &Signature,
    lit: &Lit,
    owners: &mut List<Owner>,
) -> Result<(), AllocError>
    ensures more { OnOk result ((p : Problem) (g : ℕ) → p.signature ≡ signature.now → MoreOwners (IsOwnerIn p g) owners.old owners.new) }
    ensures apart { OnOk result (AreOwnersApart owners.old → AreOwnersApart owners.new) }
    ensures own { OnOk result (universal lit.now ≡ true → HasOwner owners.new (of_literal lit.now)) }
{
    if !is_universal(lit) {
        return Ok(());
    }
    match find(owners.as_slice(), lit) {
        Some(_number) => Ok(()),
        None => {
            let owner = literal_owner(alloc, signature, lit)?;
            owners.push(owner)
        }
    }
}

/// Adds each universal literal of a trail that isn't there. The owners that are there keep their numbers.
pub fn add_literals(
    alloc: Global,
    signature: &Signature,
    trail: &[Assigned],
    owners: &mut List<Owner>,
) -> Result<(), AllocError>
    ensures more { OnOk result ((p : Problem) (g : ℕ) → p.signature ≡ signature.now → MoreOwners (IsOwnerIn p g) owners.old owners.new) }
    ensures apart { OnOk result (AreOwnersApart owners.old → AreOwnersApart owners.new) }
    ensures all { OnOk result ((k : ℕ) (a : Assigned) → slice_get trail.now k ≡ Some a → universal a.lit ≡ true → HasOwner owners.new (of_literal a.lit)) }
{
    for assigned in trail {
        add_literal(alloc, signature, &assigned.lit, owners)?;
    }
    Ok(())
}
