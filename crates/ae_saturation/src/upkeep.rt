//! What is kept up before something is taken up: rules are over representatives, and none reduces another.
ghost use Rattle.std.specs.Prelude.{◌≡◌, ℕ, OnOk};
ghost use Rattle.ae_journal.specs.Journals.{live, counted_in};
ghost use Rattle.ae_monoid.specs.Rules.{rule_at};
ghost use Rattle.ae_state.specs.Stepping.{IsInStep};
ghost use Rattle.ae_turns.specs.Budget.{MayNote};
ghost use Rattle.ae_turns.specs.Cleared.{AreCleared, AreComposed};
ghost use Rattle.ae_turns.specs.Leading.{Leads};
ghost use Rattle.ae_turns.specs.Representing.{IsTaken, AreRepresentatives};

use ae_journal::journal::Journal;
use ae_num::forms::Name;
use ae_right_sides::compose_rights;
use ae_state::Holding;
use ae_store::store::Store;
use ae_turns::{collapse, release};
use std::alloc::{AllocError, Global};

/// Takes out the rules whose left sides have a name that isn't its own representative, and those whose left sides another rule reduces.
fn clear(
    alloc: Global,
    held: &mut Holding,
    store: &Store,
    journal: &mut Journal,
    reps: &[Name],
) -> Result<(), AllocError>
    requires taken { IsTaken held.old store.now }
    requires reps { AreRepresentatives held.old reps.now }
    requires step { IsInStep held.old (live journal.old.lines) }
    ensures leads { Leads store.now held.old journal.old held.new journal.new }
    ensures step { OnOk result (IsInStep held.new (live journal.new.lines)) }
    ensures counted { counted_in journal.new.lines ≡ counted_in journal.old.lines }
    ensures budget { (n : ℕ) → MayNote held.old store.now n → MayNote held.new store.now n }
    ensures others { held.new ≡ record held.old { equations = held.new.equations } }
    ensures cleared { OnOk result (AreCleared reps.now (λ n. rule_at held.new.equations.rules n)) }
{
    release(alloc, held, store, journal, reps)?;
    collapse(alloc, held, store, journal)
}

/// Takes out rules as `clear` does, and composes the right sides of the others.
pub fn keep_up(
    alloc: Global,
    held: &mut Holding,
    store: &Store,
    journal: &mut Journal,
    reps: &[Name],
) -> Result<(), AllocError>
    requires taken { IsTaken held.old store.now }
    requires reps { AreRepresentatives held.old reps.now }
    requires step { IsInStep held.old (live journal.old.lines) }
    ensures leads { Leads store.now held.old journal.old held.new journal.new }
    ensures taken { OnOk result (IsTaken held.new store.now) }
    ensures reps { OnOk result (AreRepresentatives held.new reps.now) }
    ensures step { OnOk result (IsInStep held.new (live journal.new.lines)) }
    ensures counted { counted_in journal.new.lines ≡ counted_in journal.old.lines }
    ensures budget { (n : ℕ) → MayNote held.old store.now n → MayNote held.new store.now n }
    ensures composed { OnOk result (AreComposed reps.now (λ n. rule_at held.new.equations.rules n)) }
{
    clear(alloc, held, store, journal, reps)?;
    compose_rights(alloc, held, store, reps)
}
