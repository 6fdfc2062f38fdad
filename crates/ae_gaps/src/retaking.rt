//! Overlaps of rules that were paired before.
ghost use Rattle.std.specs.Prelude.{◌≡◌, ◌<◌, ℕ, [], Ok, Err, OnOk};
ghost use Rattle.ae_equations.specs.Queued.{waiting};
ghost use Rattle.ae_gaps.specs.Inner.Idle.{IsIdle};
ghost use Rattle.ae_gaps.specs.Inner.Overlapping.{AreApartOrInOrder, AreJoined, ArePairedOrApart};
ghost use Rattle.ae_journal.specs.Journals.{live, counted_in};
ghost use Rattle.ae_journal.specs.declared.answers.WideAt.{WideAt};
ghost use Rattle.ae_monoid.specs.Rules.{rule_at};
ghost use Rattle.ae_state.specs.Complete.{IsOwnConflict};
ghost use Rattle.ae_state.specs.Names.{rules_now};
ghost use Rattle.ae_state.specs.Stepping.{paired_now, IsInStep};
ghost use Rattle.ae_theory.specs.declared.theory.Fail.TheVariants.{Steps as OutOfSteps, Number};
ghost use Rattle.ae_turns.specs.Cleared.{AreComposed};
ghost use Rattle.ae_turns.specs.Ending.{MayBeWide};
ghost use Rattle.ae_turns.specs.Leading.{Leads};
ghost use Rattle.ae_turns.specs.Representing.{IsTaken, AreRepresentatives};
ghost use Rattle.ae_turns.specs.declared.found.Found.TheVariants.{Nothing, Advanced, Conflict};

use crate::orders::paired_in_order;
use crate::overlaps::overlap_equation;
use crate::waiting::take_up_equation;
use ae_journal::journal::Journal;
use ae_num::forms::Name;
use ae_state::Holding;
use ae_store::store::Store;
use ae_theory::theory::Fail;
use ae_turns::Found;
use ae_turns::laws::least_names_represent;
use std::alloc::Global;

/// Takes up the overlap of two rules that were paired in this order, where no equation waits. `Nothing` comes only where it joins.
fn retake_in_order(
    alloc: Global,
    held: &mut Holding,
    store: &Store,
    journal: &mut Journal,
    reps: &[Name],
    first: usize,
    second: usize,
) -> Result<Found, Fail>
    requires taken { IsTaken held.old store.now }
    requires step { IsInStep held.old (live journal.old.lines) }
    requires reps { AreRepresentatives held.old reps.now }
    requires composed { AreComposed reps.now (λ n. rule_at held.old.equations.rules n) }
    requires none_waits { waiting held.old.equations.queue ≡ [] }
    requires paired { AreApartOrInOrder (λ n. rule_at held.old.equations.rules n) journal.old.lines first second }
    ensures leads { Leads store.now held.old journal.old held.new journal.new }
    ensures taken { OnOk result (IsTaken held.new store.now) }
    ensures step { OnOk result (IsInStep held.new (live journal.new.lines)) }
    ensures steps { result ≡ Err OutOfSteps → counted_in journal.new.lines ≡ journal.new.limit }
    ensures number { (wide : WideAt) → result ≡ Err (Number wide) → MayBeWide store.now held.old journal.old.lines journal.new.lines wide }
    ensures advanced { result ≡ Ok Advanced → counted_in journal.old.lines < counted_in journal.new.lines }
    ensures conflict { (k : ℕ) → result ≡ Ok (Conflict k) → IsOwnConflict held.new k }
    ensures idle { result ≡ Ok Nothing → IsIdle held.old journal.old held.new journal.new }
    ensures joined { result ≡ Ok Nothing → AreJoined (rules_now held.old) first second }
{
    least_names_represent();
    let rules = held.equations.rules();
    let stated = overlap_equation(alloc, &mut held.justs, store, rules, first, second)?;
    match stated {
        Some(equation) => take_up_equation(alloc, held, store, journal, reps, equation),
        None => Ok(Found::Nothing),
    }
}

/// The same of two rules that were paired, in either order, or don't overlap.
fn retake(
    alloc: Global,
    held: &mut Holding,
    store: &Store,
    journal: &mut Journal,
    reps: &[Name],
    first: usize,
    second: usize,
) -> Result<Found, Fail>
    requires taken { IsTaken held.old store.now }
    requires step { IsInStep held.old (live journal.old.lines) }
    requires reps { AreRepresentatives held.old reps.now }
    requires composed { AreComposed reps.now (λ n. rule_at held.old.equations.rules n) }
    requires none_waits { waiting held.old.equations.queue ≡ [] }
    requires paired { ArePairedOrApart (λ n. rule_at held.old.equations.rules n) (paired_now held.old) first second }
    ensures leads { Leads store.now held.old journal.old held.new journal.new }
    ensures taken { OnOk result (IsTaken held.new store.now) }
    ensures step { OnOk result (IsInStep held.new (live journal.new.lines)) }
    ensures steps { result ≡ Err OutOfSteps → counted_in journal.new.lines ≡ journal.new.limit }
    ensures number { (wide : WideAt) → result ≡ Err (Number wide) → MayBeWide store.now held.old journal.old.lines journal.new.lines wide }
    ensures advanced { result ≡ Ok Advanced → counted_in journal.old.lines < counted_in journal.new.lines }
    ensures conflict { (k : ℕ) → result ≡ Ok (Conflict k) → IsOwnConflict held.new k }
    ensures idle { result ≡ Ok Nothing → IsIdle held.old journal.old held.new journal.new }
    ensures joined { result ≡ Ok Nothing → AreJoined (rules_now held.old) first second }
{
    if paired_in_order(held.equations.rules(), journal.lines(), first, second) {
        return retake_in_order(alloc, held, store, journal, reps, first, second);
    }
    retake_in_order(alloc, held, store, journal, reps, second, first)
}

/// The same of a rule and those of smaller numbers.
fn retake_below(
    alloc: Global,
    held: &mut Holding,
    store: &Store,
    journal: &mut Journal,
    reps: &[Name],
    second: usize,
) -> Result<Found, Fail>
    requires taken { IsTaken held.old store.now }
    requires step { IsInStep held.old (live journal.old.lines) }
    requires reps { AreRepresentatives held.old reps.now }
    requires composed { AreComposed reps.now (λ n. rule_at held.old.equations.rules n) }
    requires none_waits { waiting held.old.equations.queue ≡ [] }
    requires paired { (m : ℕ) → m < second → ArePairedOrApart (λ n. rule_at held.old.equations.rules n) (paired_now held.old) m second }
    ensures leads { Leads store.now held.old journal.old held.new journal.new }
    ensures taken { OnOk result (IsTaken held.new store.now) }
    ensures step { OnOk result (IsInStep held.new (live journal.new.lines)) }
    ensures steps { result ≡ Err OutOfSteps → counted_in journal.new.lines ≡ journal.new.limit }
    ensures number { (wide : WideAt) → result ≡ Err (Number wide) → MayBeWide store.now held.old journal.old.lines journal.new.lines wide }
    ensures advanced { result ≡ Ok Advanced → counted_in journal.old.lines < counted_in journal.new.lines }
    ensures conflict { (k : ℕ) → result ≡ Ok (Conflict k) → IsOwnConflict held.new k }
    ensures idle { result ≡ Ok Nothing → IsIdle held.old journal.old held.new journal.new }
    ensures joined { result ≡ Ok Nothing → (m : ℕ) → m < second → AreJoined (rules_now held.old) m second }
{
    for first in 0..second {
        match retake(alloc, held, store, journal, reps, first, second)? {
            Found::Nothing => {}
            Found::Advanced => return Ok(Found::Advanced),
            Found::Conflict(number) => return Ok(Found::Conflict(number)),
        }
    }
    Ok(Found::Nothing)
}

/// Takes up the overlaps of rules that were paired, one after another, up to the first that doesn't join. `Nothing` comes only where all of them join.
///
/// `Steps` comes only where the journal was full, `Number` only with a width that it licenses. A refusal leaves what is held right.
pub(crate) fn retake_all(
    alloc: Global,
    held: &mut Holding,
    store: &Store,
    journal: &mut Journal,
    reps: &[Name],
) -> Result<Found, Fail>
    requires taken { IsTaken held.old store.now }
    requires step { IsInStep held.old (live journal.old.lines) }
    requires reps { AreRepresentatives held.old reps.now }
    requires composed { AreComposed reps.now (λ n. rule_at held.old.equations.rules n) }
    requires none_waits { waiting held.old.equations.queue ≡ [] }
    requires paired { (m n : ℕ) → m < n → n < held.old.equations.rules.next → ArePairedOrApart (λ k. rule_at held.old.equations.rules k) (paired_now held.old) m n }
    ensures leads { Leads store.now held.old journal.old held.new journal.new }
    ensures taken { OnOk result (IsTaken held.new store.now) }
    ensures step { OnOk result (IsInStep held.new (live journal.new.lines)) }
    ensures steps { result ≡ Err OutOfSteps → counted_in journal.new.lines ≡ journal.new.limit }
    ensures number { (wide : WideAt) → result ≡ Err (Number wide) → MayBeWide store.now held.old journal.old.lines journal.new.lines wide }
    ensures advanced { result ≡ Ok Advanced → counted_in journal.old.lines < counted_in journal.new.lines }
    ensures conflict { (k : ℕ) → result ≡ Ok (Conflict k) → IsOwnConflict held.new k }
    ensures joined { result ≡ Ok Nothing → (m n : ℕ) → m < n → n < held.old.equations.rules.next → AreJoined (rules_now held.old) m n }
{
    let many = held.equations.rules().len();
    for second in 0..many {
        match retake_below(alloc, held, store, journal, reps, second)? {
            Found::Nothing => {}
            Found::Advanced => return Ok(Found::Advanced),
            Found::Conflict(number) => return Ok(Found::Conflict(number)),
        }
    }
    Ok(Found::Nothing)
}
