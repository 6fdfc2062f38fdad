//! Numbers of instances that fall: an instance gets the least number at which it is itself a match now.
ghost use Rattle.std.specs.Prelude.{◌≡◌, ◌+◌, ◌<◌, ◌||◌, ℕ, true, false, Ok, Some, OnOk, length, slice_get, slice_set};
ghost use Rattle.ae_between_rounds.specs.Between.{IsBetweenRounds};
ghost use Rattle.ae_between_rounds.specs.Finished.{IsOpenSearch};
ghost use Rattle.ae_between_rounds.specs.declared.search.Instance.{Instance as InstanceOf};
ghost use Rattle.ae_block_constants.specs.declared.opened.Opened.{Opened as OpenedOf};
ghost use Rattle.ae_brought_clauses.specs.Brought.{AreBrought};
ghost use Rattle.ae_core.specs.Signatures.{IsLawfulProblem};
ghost use Rattle.ae_core.specs.Sorts.{formula_ok};
ghost use Rattle.ae_core.specs.declared.formulas.Formula.{out-Formula};
ghost use Rattle.ae_core.specs.declared.terms.Term.{Term};
ghost use Rattle.ae_goal_names.specs.Named.{clause_terms};
ghost use Rattle.ae_owed_instances.specs.Inner.Falling.{HasFallen, IsLeastNow, IsMatchNow, total};
ghost use Rattle.ae_rules.specs.Clauses.{Clause};
ghost use Rattle.ae_rules.specs.Derivations.{clause_ok};
ghost use Rattle.ae_rules.specs.Instances.{fresh_clause};
ghost use Rattle.ae_store.specs.Stores.{IsStore};
ghost use Rattle.ae_theory.specs.Names.{terms_in};
ghost use Rattle.std.specs.List.{Contains};

use crate::asked::Asked;
use crate::matching::least_number;
use crate::saying::said;
use ae_ages::entries::Aged;
use ae_alike_names::laws::alike_names_hold;
use ae_between_rounds::search::{Instance, Search};
use ae_block_constants::Opened;
use ae_brought_clauses::bring_clause;
use ae_core::formulas::Lit;
use ae_core::lists::List;
use ae_core::problems::Signature;
use ae_owed_matches::finding::copy_subst;
use ae_store::store::Store;
use std::alloc::{AllocError, Global};

/// Gives the instance at a place another number.
fn set_number(
    alloc: Global,
    made: &mut List<Instance>,
    place: usize,
    number: u32,
) -> Result<(), AllocError>
    requires within { place < length made.old }
    ensures { OnOk result ((i : InstanceOf) → slice_get made.old place ≡ Some i → made.new ≡ slice_set made.old place (record i { number = number })) }
{
    let old = made.as_slice();
    let instance = &old[place];
    let owner = instance.owner;
    let subst = copy_subst(alloc, &instance.subst)?;
    made.set(
        place,
        Instance {
            owner,
            subst,
            number,
        },
    );
    Ok(())
}

/// Brings literals again one generation above a number, and gives the instance at a place this number.
fn bring_again(
    alloc: Global,
    signature: &Signature,
    store: &mut Store,
    ages: &mut List<Aged>,
    made: &mut List<Instance>,
    opened: &[Opened],
    literals: &[Lit],
    place: usize,
    number: u32,
) -> Result<(), AllocError>
    requires same { signature.now ≡ store.old.signature }
    requires sorted { clause_ok signature.now literals.now ≡ true }
    requires blocks { (o : OpenedOf) → Contains opened.now o → formula_ok signature.now o.formula ≡ true }
    requires there { (o : OpenedOf) → (c : Clause) → (t : Term) → Contains opened.now o → fresh_clause o.formula o.first (out-Formula o.formula) ≡ Some c → Contains (clause_terms c) t → Contains (terms_in store.old) t }
    requires within { place < length made.old }
    requires fits { number < 4294967295 }
    ensures brought { OnOk result (AreBrought opened.now (number + 1) store.old ages.old store.new ages.new literals.now) }
    ensures store { OnOk result (IsStore store.new.signature store.new.nodes) }
    ensures made { OnOk result ((i : InstanceOf) → slice_get made.old place ≡ Some i → made.new ≡ slice_set made.old place (record i { number = number })) }
{
    bring_clause(alloc, signature, store, ages, opened, literals, number + 1)?;
    let _names = store.len();
    set_number(alloc, made, place, number)?;
    Ok(())
}

/// Gives the instance at a place a less number, at which it is a match now, and brings what it says again one generation above it.
fn lower(task: Asked<'_>, search: &mut Search, place: usize, number: u32) -> Result<(), AllocError>
    requires between { IsBetweenRounds task.problem.now task.goal task.generations search.old }
    requires is_open { IsOpenSearch search.old }
    requires within { place < length search.old.instances.made }
    requires less { (i : InstanceOf) → slice_get search.old.instances.made place ≡ Some i → number < i.number }
    requires fits { number < 4294967295 }
    requires found { IsMatchNow task.problem.now task.goal search.old place number }
    ensures fallen { OnOk result (HasFallen task.entry.problem.now task.entry.goal task.entry.generations search.old search.new) }
    ensures less { OnOk result (total search.new.instances.made < total search.old.instances.made) }
    ensures rest { search.new ≡ record search.old { store = search.new.store; ages = search.new.ages; instances = search.new.instances } }
{
    alike_names_hold();
    let literals = said(task, search, place)?;
    let few = literals.as_slice();
    let opened = search.blocks.opened.as_slice();
    bring_again(
        task.alloc,
        &task.problem.signature,
        &mut search.store,
        &mut search.ages,
        &mut search.instances.made,
        opened,
        few,
        place,
        number,
    )?;
    Ok(())
}

/// Lowers the number of the instance at a place as far as it is a match now; `true` where it fell.
fn lower_at(task: Asked<'_>, search: &mut Search, place: usize) -> Result<bool, AllocError>
    requires lawful { IsLawfulProblem task.problem.now }
    requires between { IsBetweenRounds task.problem.now task.goal task.generations search.old }
    requires is_open { IsOpenSearch search.old }
    requires within { place < length search.old.instances.made }
    ensures fallen { OnOk result (HasFallen task.entry.problem.now task.entry.goal task.entry.generations search.old search.new) }
    ensures less { result ≡ Ok true → total search.new.instances.made < total search.old.instances.made }
    ensures still { result ≡ Ok false → search.new ≡ search.old }
    ensures least { result ≡ Ok false → IsLeastNow task.entry.problem.now task.entry.goal search.old place }
    ensures rest { search.new ≡ record search.old { store = search.new.store; ages = search.new.ages; instances = search.new.instances } }
{
    let number = least_number(task, search, place)?;
    if number >= search.instances.made.as_slice()[place].number {
        return Ok(false);
    }
    lower(task, search, place, number)?;
    Ok(true)
}

/// Whether one or the other.
fn either(one: bool, other: bool) -> bool
    ensures { result ≡ one || other }
{
    one || other
}

/// Lowers the number of each instance; `true` where some fell.
fn lower_each(task: Asked<'_>, search: &mut Search) -> Result<bool, AllocError>
    requires lawful { IsLawfulProblem task.problem.now }
    requires between { IsBetweenRounds task.problem.now task.goal task.generations search.old }
    requires is_open { IsOpenSearch search.old }
    ensures fallen { OnOk result (HasFallen task.entry.problem.now task.entry.goal task.entry.generations search.old search.new) }
    ensures less { result ≡ Ok true → total search.new.instances.made < total search.old.instances.made }
    ensures least { result ≡ Ok false → (k : ℕ) → k < length search.new.instances.made → IsLeastNow task.entry.problem.now task.entry.goal search.new k }
    ensures rest { search.new ≡ record search.old { store = search.new.store; ages = search.new.ages; instances = search.new.instances } }
{
    let mut fell = false;
    for place in 0..search.instances.made.len() {
        let now = lower_at(task, search, place)?;
        fell = either(fell, now);
    }
    Ok(fell)
}

/// Lowers the numbers of all instances, until each is the least at which its match is one now.
pub(crate) fn lower_all(task: Asked<'_>, search: &mut Search) -> Result<(), AllocError>
    requires lawful { IsLawfulProblem task.problem.now }
    requires between { IsBetweenRounds task.problem.now task.goal task.generations search.old }
    requires is_open { IsOpenSearch search.old }
    ensures fallen { OnOk result (HasFallen task.entry.problem.now task.entry.goal task.entry.generations search.old search.new) }
    ensures least { OnOk result ((k : ℕ) → k < length search.new.instances.made → IsLeastNow task.entry.problem.now task.entry.goal search.new k) }
    ensures rest { search.new ≡ record search.old { store = search.new.store; ages = search.new.ages; instances = search.new.instances } }
{
    'passes: loop {
        if !lower_each(task, search)? {
            return Ok(());
        }
    }
}
