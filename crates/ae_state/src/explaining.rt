//! Why conflicts can't hold, and why names have their values.
ghost use Rattle.std.specs.Prelude.{◌≡◌, ◌↔◌, ◌<◌, ℕ, [], List, Bool, true, Some, IsTrue, IfOk, IfSome, IfNone};
ghost use Rattle.std.specs.List.{AllByRecursion};
ghost use Rattle.ae_rules.specs.Built.{IsBuiltEquation};
ghost use Rattle.ae_rules.specs.Derivations.{IsContradictory, clause_ok};
ghost use Rattle.ae_rules.specs.Lines.{AllAllowed, fact_ok};
ghost use Rattle.ae_core.specs.declared.terms.Sort.{Real};
ghost use Rattle.ae_linear.specs.declared.rows.Row.{Row};
ghost use Rattle.ae_linear.specs.Rows.{row_at};
ghost use Rattle.ae_state_steps.specs.ValueSteps.{IsNumberName};
ghost use Rattle.ae_theory.specs.Noting.{IsBlockOf};
ghost use Rattle.ae_theory.specs.Names.{terms_in};
ghost use Rattle.ae_value_table.specs.Table.{own, number_at, just_at};
ghost use Rattle.ae_conflicts.specs.declared.assumed.Assumed.{Assumed as AssumedView};
ghost use Rattle.ae_conflicts.specs.Saying.{tagged};
ghost use Rattle.ae_state.specs.Names.{assumed_in};
ghost use Rattle.ae_state.specs.Fitting.{FitsStore};
ghost use Rattle.ae_state.specs.Complete.{IsOwnConflict};
ghost use Rattle.ae_state.specs.Explaining.{EndsWithValue};

use crate::holding::Holding;
use ae_conflicts::{derived, explained};
use ae_core::equality::same_sort;
use ae_core::terms::Sort;
use ae_just::justs::Justs;
use ae_num::forms::{Name, single};
use ae_store::store::Store;
use ae_theory::theory::{Derived, Explained};
use ae_value_steps::state_own;
use ae_value_table::Values;
use std::alloc::{AllocError, Global};

/// The number of the step that states the row of a name, where the name has a row.
fn row_step(values: &Values, name: Name) -> Option<usize>
    ensures some { IfSome result (λ step. (row : Row) × (row_at values.now.rows name ≡ Some row) × (just_at values.now name ≡ Some step)) }
    ensures none { IfNone result ((row : Row) (step : ℕ) → row_at values.now.rows name ≡ Some row → just_at values.now name ≡ Some step → ⊥) }
{
    match values.row(name) {
        Some(_) => values.just(name),
        None => None,
    }
}

/// The line that says of a name that is its own number that it is.
fn own_derived(alloc: Global, store: &Store, name: Name, real: bool) -> Result<Derived, AllocError>
    requires name { IsNumberName store.now.signature (terms_in store.now) real name }
    ensures allowed { IfOk result (λ d. AllAllowed store.now.signature (fact_ok store.now.signature) d.deriv.hyps [] d.deriv.lines) }
    ensures sorted { IfOk result (λ d. clause_ok store.now.signature d.deriv.hyps ≡ true) }
    // It rests on nothing.
    ensures tags { IfOk result (λ d. (held : List (ℕ × AssumedView)) → IsBlockOf (tagged held) d.deriv.hyps d.tags) }
    ensures stated { IfOk result (λ d. EndsWithValue (terms_in store.now) real name (own name) d.deriv.lines) }
    ensures built { IfOk result (λ d. AllByRecursion (IsBuiltEquation store.now.signature (terms_in store.now)) d.deriv.lines) }
{
    let mut justs = Justs::new(alloc);
    let form = single(alloc, name)?;
    let step = state_own(alloc, store, &mut justs, name, &form, real)?;
    derived(store, &justs, step)
}

/// Whether a sort is `real`.
fn is_real(sort: &Sort) -> bool
    ensures { IsTrue result ↔ (sort.now ≡ Real) }
{
    same_sort(sort, &Sort::Real)
}

impl Holding {
    /// Why a numeric name has its value: lines of which the last says that its denominator times the name is the sum of its parts, each between terms that are built
    /// of the names.
    pub fn explain_value(
        &self,
        alloc: Global,
        store: &Store,
        name: Name,
    ) -> Result<Derived, AllocError>
        requires fits { FitsStore self.now store.now }
        requires within { name < self.now.values.taken }
        requires number { (real : Bool) × IsNumberName store.now.signature (terms_in store.now) real name }
        ensures allowed { IfOk result (λ d. AllAllowed store.now.signature (fact_ok store.now.signature) d.deriv.hyps [] d.deriv.lines) }
        ensures sorted { IfOk result (λ d. clause_ok store.now.signature d.deriv.hyps ≡ true) }
        ensures tags { IfOk result (λ d. IsBlockOf (assumed_in self.now) d.deriv.hyps d.tags) }
        ensures stated { IfOk result (λ d. (real : Bool) → IsNumberName store.now.signature (terms_in store.now) real name →
            EndsWithValue (terms_in store.now) real name (number_at self.now.values name) d.deriv.lines) }
        ensures built { IfOk result (λ d. AllByRecursion (IsBuiltEquation store.now.signature (terms_in store.now)) d.deriv.lines) }
    {
        match row_step(&self.values, name) {
            Some(step) => derived(store, &self.justs, step),
            None => {
                let real = is_real(&self.values.entry(name).sort);
                own_derived(alloc, store, name, real)
            }
        }
    }

    /// Why a conflict's literals can't hold together: by equations of terms that are built of the names.
    pub fn explain(
        &self,
        alloc: Global,
        store: &Store,
        conflict: usize,
    ) -> Result<Explained, AllocError>
        requires fits { FitsStore self.now store.now }
        requires own { IsOwnConflict self.now conflict }
        ensures contradictory { IfOk result (λ e. IsContradictory store.now.signature e.block) }
        ensures sorted { IfOk result (λ e. clause_ok store.now.signature e.block.deriv.hyps ≡ true) }
        ensures tags { IfOk result (λ e. IsBlockOf (assumed_in self.now) e.block.deriv.hyps e.tags) }
        ensures built { IfOk result (λ e. AllByRecursion (IsBuiltEquation store.now.signature (terms_in store.now)) e.block.deriv.lines) }
    {
        let reason = &self.conflicts.as_slice()[conflict];
        explained(alloc, store, &self.justs, &self.assumed, reason)
    }
}
