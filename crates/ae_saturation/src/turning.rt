//! One turn: rules are kept up, and then the first thing that is left to do is taken up.
ghost use Rattle.std.specs.Prelude.{◌≡◌, [], Ok};
ghost use Rattle.ae_equations.specs.Queued.{waiting};
ghost use Rattle.ae_journal.specs.Journals.{live};
ghost use Rattle.ae_monoid.specs.Rules.{rule_at};
ghost use Rattle.ae_state.specs.Complete.{IsComplete};
ghost use Rattle.ae_state.specs.Stepping.{IsInStep};
ghost use Rattle.ae_sweeps.specs.Given.{AreConstants};
ghost use Rattle.ae_theory.specs.Names.{terms_in};
ghost use Rattle.ae_turns.specs.declared.found.Found.TheVariants.{Nothing};
ghost use Rattle.ae_turns.specs.Cleared.{AreComposed};
ghost use Rattle.ae_turns.specs.Representing.{IsTaken, AreRepresentatives};
ghost use Rattle.ae_saturation.specs.Inner.Turned.{IsTurned};

use crate::upkeep::keep_up;
use ae_gaps::{first_waiting, take_up_gap};
use ae_journal::journal::Journal;
use ae_least_names::least_names;
use ae_num::forms::Name;
use ae_settled::laws::{a_settled_state_is_completed, a_settled_state_satisfies_its_literals};
use ae_state::Holding;
use ae_store::store::Store;
use ae_theory::theory::Fail;
use ae_turns::Found;
use ae_unmet::take_up_unmet;
use std::alloc::Global;

/// Takes up what an assumed literal, or else what a sweep over names and rules leaves to do. `Nothing` comes only where nothing is left to do.
fn look(
    alloc: Global,
    held: &mut Holding,
    store: &Store,
    constants: &[bool],
    journal: &mut Journal,
    reps: &[Name],
) -> Result<Found, Fail>
    requires taken { IsTaken held.old store.now }
    requires step { IsInStep held.old (live journal.old.lines) }
    requires reps { AreRepresentatives held.old reps.now }
    requires constants { AreConstants (terms_in store.now) constants.now }
    requires composed { AreComposed reps.now (λ n. rule_at held.old.equations.rules n) }
    requires none_waits { waiting held.old.equations.queue ≡ [] }
    ensures turned { IsTurned store.now held.old journal.old result held.new journal.new }
    ensures complete { result ≡ Ok Nothing → IsComplete held.new }
{
    a_settled_state_is_completed();
    a_settled_state_satisfies_its_literals();
    let _rule = held.equations.rules().rule(0);
    match take_up_unmet(alloc, held, store, journal, reps)? {
        Found::Nothing => take_up_gap(alloc, held, store, constants, journal, reps),
        Found::Advanced => Ok(Found::Advanced),
        Found::Conflict(number) => Ok(Found::Conflict(number)),
    }
}

/// Takes up the first equation that waits, or else what `look` finds.
fn take_up(
    alloc: Global,
    held: &mut Holding,
    store: &Store,
    constants: &[bool],
    journal: &mut Journal,
    reps: &[Name],
) -> Result<Found, Fail>
    requires taken { IsTaken held.old store.now }
    requires step { IsInStep held.old (live journal.old.lines) }
    requires reps { AreRepresentatives held.old reps.now }
    requires constants { AreConstants (terms_in store.now) constants.now }
    requires composed { AreComposed reps.now (λ n. rule_at held.old.equations.rules n) }
    ensures turned { IsTurned store.now held.old journal.old result held.new journal.new }
    ensures complete { result ≡ Ok Nothing → IsComplete held.new }
{
    match first_waiting(alloc, held, store, journal, reps)? {
        Found::Nothing => look(alloc, held, store, constants, journal, reps),
        Found::Advanced => Ok(Found::Advanced),
        Found::Conflict(number) => Ok(Found::Conflict(number)),
    }
}

/// One turn. `Nothing` comes only where nothing is left to do; where something was taken up, a counted line was noted.
pub fn turn(
    alloc: Global,
    held: &mut Holding,
    store: &Store,
    constants: &[bool],
    journal: &mut Journal,
) -> Result<Found, Fail>
    requires taken { IsTaken held.old store.now }
    requires step { IsInStep held.old (live journal.old.lines) }
    requires constants { AreConstants (terms_in store.now) constants.now }
    ensures turned { IsTurned store.now held.old journal.old result held.new journal.new }
    ensures complete { result ≡ Ok Nothing → IsComplete held.new }
{
    let reps = least_names(alloc, &held.values)?;
    keep_up(alloc, held, store, journal, reps.as_slice())?;
    take_up(alloc, held, store, constants, journal, reps.as_slice())
}
