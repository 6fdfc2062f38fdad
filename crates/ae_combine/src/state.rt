//! The rewriting state, as a theory.
ghost use Rattle.std.specs.Prelude.{◌≡◌, ◌<◌, ◌≤◌, count_by, [], ℕ, Bool, true, List, length, Ok, IfOk, IfSome};
ghost use Rattle.std.specs.List.{AllByRecursion};
ghost use Rattle.ae_base.specs.Options.{known};
ghost use Rattle.ae_core.specs.Sorts.{sort_of};
ghost use Rattle.ae_rules.specs.Built.{IsBuiltEquation};
ghost use Rattle.ae_rules.specs.Derivations.{clause_ok};
ghost use Rattle.ae_rules.specs.Lines.{AllAllowed, fact_ok};
ghost use Rattle.ae_journal.specs.Systems.{IsCompleted};
ghost use Rattle.ae_state_steps.specs.ValueSteps.{IsNumberName};
ghost use Rattle.ae_store.specs.Stores.{Stored};
ghost use Rattle.ae_theory.specs.Names.{terms_in};
ghost use Rattle.ae_theory.specs.Noting.{IsBlockOf};
ghost use Rattle.ae_theory.specs.declared.theory.Outcome.TheVariants.{Complete};
ghost use Rattle.ae_value_table.specs.Table.{number_at};
ghost use Rattle.ae_state.specs.Names.{IsWrittenRising, assumed_in, system_now};
ghost use Rattle.ae_state.specs.Fitting.{FitsStore};
ghost use Rattle.ae_state.specs.Stepping.{IsInStep};
ghost use Rattle.ae_state.specs.Complete.{IsComplete};
ghost use Rattle.ae_state.specs.Explaining.{EndsWithValue};
ghost use Rattle.ae_turns.specs.Budget.{HasNoJoins, MayNote};

use ae_conflicts::laws::conflicts_are_contradictory;
use ae_core::formulas::Lit;
use ae_core::lists::List;
use ae_core::problems::Signature;
use ae_journal::journal::Journal;
use ae_journal::systems::System;
use ae_num::forms::Name;
use ae_saturation::saturate;
use ae_short_explanations::explain;
use ae_state::{Holding, Mark as HeldMark};
use ae_steps::Steps;
use ae_store::store::Store;
use ae_theory::theory::{Derived, Equalities, Explained, Fail, Outcome, Theory};
use std::alloc::{AllocError, Global};
use std::marker::Model;
use std::sync::ledger::Ledger;

/// What is held of the names of a store and of assumed literals, right at any time.
#[derive(Drop)]
pub struct State {
    held: Holding,
    /// Of how many of the assumed literals, the first ones, it is known that nothing is left to do for them.
    complete_for: Option<usize>,
}

/// A mark of a state, for `restore`.
#[derive(Clone, Copy)]
pub struct Mark {
    held: HeldMark,
    complete_for: Option<usize>,
}

impl Model for State {
    ghost use Rattle.ae_state.specs.contracts.holding.Holding as holding;
    ghost use Rattle.ae_state.specs.declared.holding.Holding.{Holding};
    ghost use Rattle.ae_state.specs.Right.{IsRight};
    ghost use Rattle.ae_combine.specs.Known.{IsKnown};

    ghost Value = { Holding };

    ghost coded = { holding.the_row.coded };

    ghost view = { λ o. o.held };

    ghost invariant = { λ o. IsRight o.held × IsKnown o.complete_for o.held };
}

impl State {
    /// It knows no name, and has assumed nothing.
    pub fn new(alloc: Global, signature: &Signature) -> Result<State, AllocError>
        ensures signature { IfOk result (λ o. o.signature ≡ signature.now) }
        ensures assumed { IfOk result (λ o. assumed_in o ≡ []) }
        // It fits each store of the signature.
        ensures fits { IfOk result (λ o. (s : Stored) → s.signature ≡ signature.now → FitsStore o s) }
        ensures step { IfOk result (λ o. IsInStep o []) }
        // At most as many lines may be noted as names of the store are of well-sorted terms, where no AC symbol is applied.
        ensures budget { IfOk result (λ o. (s : Stored) (n : ℕ) → HasNoJoins s → count_by (λ t. known (sort_of s.signature t)) (terms_in s) ≤ n → MayNote o s n) }
    {
        let held = Holding::new(alloc, signature)?;
        Ok(State {
            held,
            complete_for: None,
        })
    }

    /// The names that have values, with their terms, the values and the rules. Where the state is complete, the system is completed.
    pub fn system(&self, alloc: Global, store: &Store) -> Result<System, AllocError>
        requires fits { FitsStore self.now store.now }
        ensures system { IfOk result (λ y. y ≡ system_now self.now) }
        // Multisets are written rising.
        ensures rises { IfOk result (λ y. AllByRecursion IsWrittenRising y.rules) }
        ensures completed { IfOk result (λ y. IsComplete self.now → IsCompleted store.now.signature y) }
    {
        self.held.system(alloc, store)
    }

    /// Why a numeric name has its value: lines of which the last says that its denominator times the name is the sum of its parts, each between terms that are built
    /// of the names.
    pub fn explain_value(
        &self,
        alloc: Global,
        store: &Store,
        name: Name,
    ) -> Result<Derived, AllocError>
        requires fits { FitsStore self.now store.now }
        requires within { name < self.now.values.taken }
        requires number { (real : Bool) × IsNumberName store.now.signature (terms_in store.now) real name }
        ensures allowed { IfOk result (λ d. AllAllowed store.now.signature (fact_ok store.now.signature) d.deriv.hyps [] d.deriv.lines) }
        ensures sorted { IfOk result (λ d. clause_ok store.now.signature d.deriv.hyps ≡ true) }
        ensures tags { IfOk result (λ d. IsBlockOf (assumed_in self.now) d.deriv.hyps d.tags) }
        ensures stated { IfOk result (λ d. (real : Bool) → IsNumberName store.now.signature (terms_in store.now) real name →
            EndsWithValue (terms_in store.now) real name (number_at self.now.values name) d.deriv.lines) }
        ensures built { IfOk result (λ d. AllByRecursion (IsBuiltEquation store.now.signature (terms_in store.now)) d.deriv.lines) }
    {
        self.held.explain_value(alloc, store, name)
    }
}

/// All literals, so many, where nothing was left to do.
fn known_after(found: &Result<Outcome, Fail>, literals: usize) -> Option<usize>
    ensures { IfSome result (λ count. (found.now ≡ Ok Complete) × (count ≡ literals)) }
{
    match found {
        Ok(Outcome::Complete) => Some(literals),
        Ok(Outcome::Conflict(_)) => None,
        Err(_) => None,
    }
}

impl Equalities for State {
    ghost use Rattle.ae_value_table.specs.Alike.{alike as alike_names};
    ghost use Rattle.ae_value_table.proofs.Least.{alike_itself};
    ghost use Rattle.ae_state.specs.Fitting.{FitsStore};
    ghost use Rattle.ae_state.proofs.Alikeness.{alike_turned, alike_through, alike_sorted};
    ghost use Rattle.ae_state.proofs.Standing.{larger_fit};

    ghost fits = { λ o s. FitsStore o s };

    ghost alike = { λ o m n. alike_names o.values m n };

    fn same(&self, left: Name, right: Name) -> bool {
        self.held.same(left, right)
    }

    fn equals(&self, alloc: Global, store: &Store, name: Name) -> Result<List<Name>, AllocError> {
        self.held.equals(alloc, store, name)
    }

    ghost reflexive = { λ o n. alike_itself o.values n };

    ghost symmetric = { λ o m n h. alike_turned o.values m n h };

    ghost transitive = { λ o l m n h k. alike_through o.values l m n h k };

    ghost sorted = { λ o s f m n h. alike_sorted o s f m n h };

    ghost fits_more = { λ o a b e f. larger_fit o a b e f };
}

impl Theory for State {
    ghost use Rattle.std.specs.Prelude.{◌≡◌};
    ghost use Rattle.ae_theory.specs.Names.{terms_in};
    ghost use Rattle.ae_state.specs.Names.{assumed_in, terms_now};
    ghost use Rattle.ae_state.specs.Complete.{IsComplete, IsOwnConflict};
    ghost use Rattle.ae_state.specs.Stepping.{IsInStep};
    ghost use Rattle.ae_state.proofs.Standing.{silent_keeps};
    ghost use Rattle.ae_turns.specs.Budget.{MayNote};
    ghost use Rattle.ae_combine.specs.Marks.{IsMarkOf};

    type Mark = Mark;

    ghost assumed = { λ o. assumed_in o };

    ghost fits_mark = { λ o m then. IsMarkOf o m then };

    ghost own_conflict = { λ o k. IsOwnConflict o k };

    // all names of the store have values, and nothing is left to do
    ghost is_complete = { λ o s. IsComplete o × (terms_now o ≡ terms_in s) };

    ghost in_step = { λ o js. IsInStep o js };

    ghost may_note = { λ o s n. MayNote o s n };

    fn assume(
        &mut self,
        alloc: Global,
        store: &Store,
        lit: &Lit,
        tag: usize,
    ) -> Result<(), AllocError> {
        self.held.assume(alloc, store, lit, tag)
    }

    fn saturate(
        &mut self,
        alloc: Global,
        store: &Store,
        journal: &mut Journal,
    ) -> Result<Outcome, Fail> {
        conflicts_are_contradictory();
        let complete_for = self.complete_for;
        self.complete_for = None;
        let found = saturate(alloc, &mut self.held, store, journal, complete_for);
        self.complete_for = known_after(&found, self.held.next);
        found
    }

    fn mark<L: Ledger>(&self, steps: &mut Steps<L>) -> Mark {
        Mark {
            held: self.held.mark(steps),
            complete_for: self.complete_for,
        }
    }

    fn restore<L: Ledger>(&mut self, mark: &Mark, steps: &mut Steps<L>) {
        self.held.restore(&mark.held, steps);
        self.complete_for = mark.complete_for;
    }

    fn explain(
        &self,
        alloc: Global,
        store: &Store,
        conflict: usize,
    ) -> Result<Explained, AllocError> {
        explain(alloc, &self.held, store, conflict)
    }

    ghost silent = { λ o js j s h. silent_keeps o js j s h };
}
