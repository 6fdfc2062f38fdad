//! Laws of values of integers. These functions do nothing: each one's contract is a theorem.
ghost use Rattle.std.specs.Prelude.{◌≡◌, ℕ, false, List, slice_get, Some};
ghost use Rattle.ae_core.specs.declared.problems.Signature.{Signature};
ghost use Rattle.ae_core.specs.declared.terms.Sort.{Int};
ghost use Rattle.ae_core.specs.declared.terms.Term.{Term};
ghost use Rattle.ae_core.specs.Sorts.{sort_of};
ghost use Rattle.ae_num.specs.declared.forms.Lin.{Lin};
ghost use Rattle.ae_num.specs.declared.forms.Value.{Number};
ghost use Rattle.ae_journal.specs.declared.systems.System.{System};
ghost use Rattle.ae_store.specs.Terms.{HasOneName, Keeps};
ghost use Rattle.ae_just.specs.declared.steps.Step.{Step};
ghost use Rattle.ae_settled.specs.Valued.{AreValues};
ghost use Rattle.ae_value_steps.specs.Stating.{IsStated};
ghost use Rattle.ae_value_table.specs.Table.{Contents, held, values};
ghost use Rattle.ae_value_fitting.specs.Fitting.{system_in, ArePatterns, AreSaid};
ghost use Rattle.ae_conflicts.specs.declared.assumed.Assumed.{Assumed};
ghost use Rattle.ae_conflicts.specs.declared.conflicts.Conflict.TheVariants.{Unsolvable};
ghost use Rattle.ae_conflicts.specs.Saying.{RestsOnAssumed};
ghost use Rattle.ae_conflicts.specs.Conflicting.{IsConflict};
ghost use Rattle.ae_whole_values.specs.Wholes.{IsWhole, AreAllWhole, IsFraction, HaveArguments};

/// The step that states the value of an integer, where that isn't whole, has no solution: a conflict of the literals that it rests on. The terms `ts`
/// may be more than those that have values.
pub fn fractions_are_conflicts()
    ensures { (sig : Signature) (ts : List Term) (y : System) (steps : List Step) (assumed : List (ℕ × Assumed)) (n id : ℕ) (f : Lin) → Keeps y.names ts → HasOneName y.names
        → HaveArguments y → AreValues sig y → slice_get y.values n ≡ Some (Number f) → (IsWhole f → ⊥) → IsStated sig y.names steps false n f id → RestsOnAssumed ts steps assumed id
        → IsConflict sig ts steps assumed (Unsolvable id) }
{}

/// The step that says the value of a name of integers, which isn't whole, is such a conflict.
pub fn fractions_of_names_are_conflicts()
    ensures { (sig : Signature) (ts now : List Term) (c : Contents) (steps : List Step) (assumed : List (ℕ × Assumed)) (id : ℕ) → Keeps now ts → HasOneName now → HaveArguments (system_in now c)
        → AreValues sig (system_in now c) → AreSaid sig now steps c → ArePatterns sig now (held c) → RestsOnAssumed ts steps assumed id → IsFraction c id
        → IsConflict sig ts steps assumed (Unsolvable id) }
{}

/// Where all values of names of integers are whole, so is each value that is shown for such a name.
pub fn values_of_integers_are_whole()
    ensures { (sig : Signature) (ts : List Term) (c : Contents) → ArePatterns sig ts (held c) → AreAllWhole c → (n : ℕ) (t : Term) (f : Lin) → slice_get ts n ≡ Some t → sort_of sig t ≡ Some Int
        → slice_get (values c) n ≡ Some (Number f) → IsWhole f }
{}
