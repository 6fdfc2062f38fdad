//! What a sweep finds.
ghost use Rattle.std.specs.Prelude.{◌≡◌, ◌<◌, ℕ, List, [], Ok, Err, OnOk};
ghost use Rattle.ae_equations.specs.Queued.{waiting};
ghost use Rattle.ae_gaps.specs.Inner.Openings.{IsOpening};
ghost use Rattle.ae_gaps.specs.Inner.Overlapping.{AreJoined};
ghost use Rattle.ae_monoid.specs.Rules.{rule_at};
ghost use Rattle.ae_settled.specs.Swept.{IsSwept};
ghost use Rattle.ae_state.specs.Names.{rules_now};
ghost use Rattle.ae_sweeps.specs.Gaps.{IsUnflat, IsOpen};
ghost use Rattle.ae_sweeps.specs.Given.{rep_in, AreConstants};
ghost use Rattle.ae_theory.specs.Names.{terms_in};
ghost use Rattle.ae_turns.specs.Cleared.{AreComposed};
ghost use Rattle.ae_turns.specs.declared.found.Found.{Found as FoundView};
ghost use Rattle.ae_turns.specs.Budget.{KeepsWithin};
ghost use Rattle.ae_turns.specs.Ending.{MayBeWide};
ghost use Rattle.ae_journal.specs.Journals.{live, counted_in};
ghost use Rattle.ae_journal.specs.declared.answers.WideAt.{WideAt};
ghost use Rattle.ae_state.specs.Complete.{IsOwnConflict};
ghost use Rattle.ae_state.specs.Stepping.{IsInStep};
ghost use Rattle.ae_theory.specs.declared.theory.Fail.TheVariants.{Steps as OutOfSteps, Number};
ghost use Rattle.ae_turns.specs.declared.found.Found.TheVariants.{Nothing, Advanced, Conflict};
ghost use Rattle.ae_turns.specs.Leading.{Leads};
ghost use Rattle.ae_turns.specs.Representing.{IsTaken, AreRepresentatives};

use crate::congruences::take_up_congruent;
use crate::coupling::couple;
use crate::joins::take_up_join;
use crate::openings::{Opening, first_opening};
use crate::retaking::retake_all;
use crate::unpaired::{are_unpaired, first_unpaired};
use ae_journal::journal::Journal;
use ae_num::forms::Name;
use ae_state::Holding;
use ae_store::store::Store;
use ae_theory::theory::Fail;
use ae_turns::Found;
use std::alloc::Global;

/// Pairs the first two rules that overlap and weren't paired; where there are none, takes up the overlaps of those that were. `Nothing` comes only where
/// all of them join.
fn take_up_overlaps(
    alloc: Global,
    held: &mut Holding,
    store: &Store,
    journal: &mut Journal,
    reps: &[Name],
) -> Result<Found, Fail>
    requires taken { IsTaken held.old store.now }
    requires step { IsInStep held.old (live journal.old.lines) }
    requires reps { AreRepresentatives held.old reps.now }
    requires composed { AreComposed reps.now (λ n. rule_at held.old.equations.rules n) }
    requires none_waits { waiting held.old.equations.queue ≡ [] }
    ensures leads { Leads store.now held.old journal.old held.new journal.new }
    ensures taken { OnOk result (IsTaken held.new store.now) }
    ensures step { OnOk result (IsInStep held.new (live journal.new.lines)) }
    ensures steps { result ≡ Err OutOfSteps → counted_in journal.new.lines ≡ journal.new.limit }
    ensures number { (wide : WideAt) → result ≡ Err (Number wide) → MayBeWide store.now held.old journal.old.lines journal.new.lines wide }
    ensures advanced { result ≡ Ok Advanced → counted_in journal.old.lines < counted_in journal.new.lines }
    ensures conflict { (k : ℕ) → result ≡ Ok (Conflict k) → IsOwnConflict held.new k }
    ensures joined { result ≡ Ok Nothing → (m n : ℕ) → m < n → n < held.old.equations.rules.next → AreJoined (rules_now held.old) m n }
{
    if let Some(two) = first_unpaired(&held.equations)? {
        couple(alloc, held, store, journal, two.first, two.second)?;
        return Ok(Found::Advanced);
    }
    retake_all(alloc, held, store, journal, reps)
}

/// Takes up two rules of which the overlap doesn't join: pairs them, or where they were paired, other rules.
fn take_up_pair(
    alloc: Global,
    held: &mut Holding,
    store: &Store,
    journal: &mut Journal,
    reps: &[Name],
    first: usize,
    second: usize,
) -> Result<Found, Fail>
    requires taken { IsTaken held.old store.now }
    requires step { IsInStep held.old (live journal.old.lines) }
    requires reps { AreRepresentatives held.old reps.now }
    requires composed { AreComposed reps.now (λ n. rule_at held.old.equations.rules n) }
    requires none_waits { waiting held.old.equations.queue ≡ [] }
    requires open { (a : List ℕ) × (b : List ℕ) × IsOpen (rules_now held.old) first second a b }
    ensures leads { Leads store.now held.old journal.old held.new journal.new }
    ensures taken { OnOk result (IsTaken held.new store.now) }
    ensures step { OnOk result (IsInStep held.new (live journal.new.lines)) }
    ensures steps { result ≡ Err OutOfSteps → counted_in journal.new.lines ≡ journal.new.limit }
    ensures number { (wide : WideAt) → result ≡ Err (Number wide) → MayBeWide store.now held.old journal.old.lines journal.new.lines wide }
    ensures advanced { result ≡ Ok Advanced → counted_in journal.old.lines < counted_in journal.new.lines }
    ensures conflict { (k : ℕ) → result ≡ Ok (Conflict k) → IsOwnConflict held.new k }
    ensures never { result ≡ Ok Nothing → ⊥ }
{
    let _rule = held.equations.rules().rule(0);
    if are_unpaired(&held.equations, first, second)? {
        couple(alloc, held, store, journal, first, second)?;
        return Ok(Found::Advanced);
    }
    take_up_overlaps(alloc, held, store, journal, reps)
}

/// Takes up a name that its arguments don't come down to: its equation with them, or where that comes down to one multiset, overlaps of rules.
fn take_up_unflat(
    alloc: Global,
    held: &mut Holding,
    store: &Store,
    journal: &mut Journal,
    reps: &[Name],
    name: Name,
) -> Result<Found, Fail>
    requires taken { IsTaken held.old store.now }
    requires step { IsInStep held.old (live journal.old.lines) }
    requires reps { AreRepresentatives held.old reps.now }
    requires composed { AreComposed reps.now (λ n. rule_at held.old.equations.rules n) }
    requires none_waits { waiting held.old.equations.queue ≡ [] }
    requires unflat { (a : List ℕ) × IsUnflat store.now.signature store.now.nodes (rep_in reps.now) (rules_now held.old) name a }
    ensures leads { Leads store.now held.old journal.old held.new journal.new }
    ensures taken { OnOk result (IsTaken held.new store.now) }
    ensures step { OnOk result (IsInStep held.new (live journal.new.lines)) }
    ensures steps { result ≡ Err OutOfSteps → counted_in journal.new.lines ≡ journal.new.limit }
    ensures number { (wide : WideAt) → result ≡ Err (Number wide) → MayBeWide store.now held.old journal.old.lines journal.new.lines wide }
    ensures advanced { result ≡ Ok Advanced → counted_in journal.old.lines < counted_in journal.new.lines }
    ensures conflict { (k : ℕ) → result ≡ Ok (Conflict k) → IsOwnConflict held.new k }
    ensures never { result ≡ Ok Nothing → ⊥ }
{
    let _rule = held.equations.rules().rule(0);
    match take_up_join(alloc, held, store, journal, reps, name)? {
        Found::Nothing => take_up_overlaps(alloc, held, store, journal, reps),
        Found::Advanced => Ok(Found::Advanced),
        Found::Conflict(number) => Ok(Found::Conflict(number)),
    }
}

/// Takes up what a sweep found.
fn take_up_opening(
    alloc: Global,
    held: &mut Holding,
    store: &Store,
    journal: &mut Journal,
    reps: &[Name],
    opening: Opening,
) -> Result<Found, Fail>
    requires taken { IsTaken held.old store.now }
    requires step { IsInStep held.old (live journal.old.lines) }
    requires reps { AreRepresentatives held.old reps.now }
    requires composed { AreComposed reps.now (λ n. rule_at held.old.equations.rules n) }
    requires none_waits { waiting held.old.equations.queue ≡ [] }
    requires open { IsOpening store.now.signature store.now.nodes (rep_in reps.now) (rules_now held.old) opening }
    ensures leads { Leads store.now held.old journal.old held.new journal.new }
    ensures taken { OnOk result (IsTaken held.new store.now) }
    ensures step { OnOk result (IsInStep held.new (live journal.new.lines)) }
    ensures steps { result ≡ Err OutOfSteps → counted_in journal.new.lines ≡ journal.new.limit }
    ensures number { (wide : WideAt) → result ≡ Err (Number wide) → MayBeWide store.now held.old journal.old.lines journal.new.lines wide }
    ensures advanced { result ≡ Ok Advanced → counted_in journal.old.lines < counted_in journal.new.lines }
    ensures conflict { (k : ℕ) → result ≡ Ok (Conflict k) → IsOwnConflict held.new k }
    ensures never { result ≡ Ok Nothing → ⊥ }
    ensures budget { KeepsWithin FoundView store.now held.old journal.old.lines result held.new journal.new.lines }
{
    match opening {
        Opening::Unequal { first, second } => {
            take_up_congruent(alloc, held, store, journal, reps, first, second)
        }
        Opening::Unflat(name) => take_up_unflat(alloc, held, store, journal, reps, name),
        Opening::Pair { first, second } => {
            take_up_pair(alloc, held, store, journal, reps, first, second)
        }
    }
}

/// Takes up the first thing that a sweep over names and rules finds left to do: congruent names of different values are solved; a name of an AC symbol that
/// its arguments don't come down to, and two rules whose overlap has two results, give an equation that is taken up. `Nothing` comes only where the sweep
/// finds nothing, and then nothing changes.
///
/// `constants` says of each name whether its term's linear form is a number. `Steps` comes only where the journal was full, `Number` only with a width that
/// it licenses. A refusal leaves what is held right.
pub fn take_up_gap(
    alloc: Global,
    held: &mut Holding,
    store: &Store,
    constants: &[bool],
    journal: &mut Journal,
    reps: &[Name],
) -> Result<Found, Fail>
    requires taken { IsTaken held.old store.now }
    requires step { IsInStep held.old (live journal.old.lines) }
    requires reps { AreRepresentatives held.old reps.now }
    requires constants { AreConstants (terms_in store.now) constants.now }
    requires composed { AreComposed reps.now (λ n. rule_at held.old.equations.rules n) }
    requires none_waits { waiting held.old.equations.queue ≡ [] }
    ensures leads { Leads store.now held.old journal.old held.new journal.new }
    ensures taken { OnOk result (IsTaken held.new store.now) }
    ensures step { OnOk result (IsInStep held.new (live journal.new.lines)) }
    ensures steps { result ≡ Err OutOfSteps → counted_in journal.new.lines ≡ journal.new.limit }
    ensures number { (wide : WideAt) → result ≡ Err (Number wide) → MayBeWide store.now held.old journal.old.lines journal.new.lines wide }
    ensures advanced { result ≡ Ok Advanced → counted_in journal.old.lines < counted_in journal.new.lines }
    ensures conflict { (k : ℕ) → result ≡ Ok (Conflict k) → IsOwnConflict held.new k }
    ensures budget { KeepsWithin FoundView store.now held.old journal.old.lines result held.new journal.new.lines }
    ensures stays { result ≡ Ok Nothing → held.new ≡ held.old }
    ensures lines { result ≡ Ok Nothing → journal.new ≡ journal.old }
    ensures swept { result ≡ Ok Nothing → IsSwept store.now.signature store.now.nodes (rep_in reps.now) (rules_now held.old) }
{
    let Some(opening) = first_opening(alloc, held, store, constants, reps)? else {
        return Ok(Found::Nothing);
    };
    take_up_opening(alloc, held, store, journal, reps, opening)
}
