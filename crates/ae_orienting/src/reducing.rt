//! The oldest equation that waits, reduced.
ghost use Rattle.std.specs.Prelude.{◌≡◌, ◌⊎◌, [], IfOk};
ghost use Rattle.ae_equation_turns.specs.Turned.{AreRightsOwn};
ghost use Rattle.ae_equations.specs.Queued.{waiting};
ghost use Rattle.ae_journal.specs.Noted.{Noted};
ghost use Rattle.ae_monoid.specs.Rules.{rule_at};
ghost use Rattle.ae_multiset.specs.Multisets.{IsLess};
ghost use Rattle.ae_turns.specs.Leading.{Leads};
ghost use Rattle.ae_turns.specs.Representing.{IsTaken, AreRepresentatives};
ghost use Rattle.ae_orienting.specs.Inner.Reduced.{IsFirstReduced};

use crate::turning::with_larger_left;
use ae_entering::laws::entries_of_all_names_fit;
use ae_equation_turns::reduced_equation;
use ae_equations::Waiting;
use ae_num::forms::Name;
use ae_representatives::equal_to_representatives;
use ae_state::Holding;
use ae_store::store::Store;
use std::alloc::{AllocError, Global};

/// The oldest equation that waits, with its sides reduced and the larger one on the left. Nothing but steps is added, which stay where memory is refused.
pub(crate) fn reduced_first(
    alloc: Global,
    held: &mut Holding,
    store: &Store,
    reps: &[Name],
) -> Result<Waiting, AllocError>
    requires taken { IsTaken held.old store.now }
    requires reps { AreRepresentatives held.old reps.now }
    requires rights { AreRightsOwn reps.now (λ n. rule_at held.old.equations.rules n) }
    requires some { waiting held.old.equations.queue ≡ [] → ⊥ }
    ensures others { held.new ≡ record held.old { justs = held.new.justs } }
    ensures leads { (j : Noted) → Leads store.now held.old j held.new j }
    ensures taken { IsTaken held.new store.now }
    ensures first { IfOk result (λ e. IsFirstReduced store.now held.new reps.now e) }
    ensures falls { IfOk result (λ e. (e.left ≡ e.right) ⊎ IsLess e.right e.left) }
{
    entries_of_all_names_fit();
    let Some(first) = held.equations.first() else {
        unreachable!()
    };
    let left = first.left.as_slice();
    let right = first.right.as_slice();
    let values = &held.values;
    let left_equal = equal_to_representatives(alloc, values, &mut held.justs, store, left, reps)?;
    let right_equal = equal_to_representatives(alloc, values, &mut held.justs, store, right, reps)?;
    let sides = reduced_equation(
        alloc,
        &mut held.justs,
        store,
        held.equations.rules(),
        first,
        reps,
        left_equal.as_slice(),
        right_equal.as_slice(),
    )?;
    with_larger_left(alloc, &mut held.justs, store, &first.symbol, sides)
}
