//! Equations that wait.
ghost use Rattle.std.specs.Prelude.{◌≡◌, ◌<◌, ℕ, [], drop, false, Ok, Err, OnOk, Some, IsTrue};
ghost use Rattle.ae_equation_turns.specs.Turned.{AreRightsOwn};
ghost use Rattle.ae_equations.specs.Queued.{waiting};
ghost use Rattle.ae_equations.specs.declared.queue.Waiting.{Waiting};
ghost use Rattle.ae_monoid.specs.Rules.{rule_at};
ghost use Rattle.ae_orienting.specs.Meeting.{Meets};
ghost use Rattle.ae_pmap.specs.Walk.{first_of};
ghost use Rattle.ae_turns.specs.Ending.{MayBeWide};
ghost use Rattle.ae_journal.specs.Journals.{live, counted_in};
ghost use Rattle.ae_journal.specs.declared.answers.WideAt.{WideAt};
ghost use Rattle.ae_state.specs.Complete.{IsOwnConflict};
ghost use Rattle.ae_state.specs.Stepping.{IsInStep};
ghost use Rattle.ae_theory.specs.declared.theory.Fail.TheVariants.{Steps as OutOfSteps, Number};
ghost use Rattle.ae_turns.specs.declared.found.Found.TheVariants.{Nothing, Advanced, Conflict};
ghost use Rattle.ae_turns.specs.Leading.{Leads};
ghost use Rattle.ae_turns.specs.Representing.{IsTaken, AreRepresentatives};

use crate::naming::solve;
use crate::orienting::orient;
use crate::reducing::reduced_first;
use ae_equations::Equations;
use ae_journal::journal::Journal;
use ae_num::forms::Name;
use ae_state::Holding;
use ae_store::store::Store;
use ae_theory::theory::Fail;
use ae_turns::Found;
use std::alloc::Global;

/// Whether two lists are of the same names.
fn are_equal(left: &[Name], right: &[Name]) -> bool
    ensures yes { IsTrue result → left.now ≡ right.now }
    ensures no { result ≡ false → left.now ≡ right.now → ⊥ }
{
    left == right
}

/// Takes up the oldest equation that waits. Its sides are reduced, by representatives and by the rules of its symbol. Where they are one multiset then, it is
/// given up, and nothing else changes. Two single names are solved; of any other sides the larger becomes the left side of a rule.
///
/// `Steps` comes only where the journal was full, `Number` only with a width that it licenses. A refusal leaves what is held right.
pub fn take_up_first(
    alloc: Global,
    held: &mut Holding,
    store: &Store,
    journal: &mut Journal,
    reps: &[Name],
) -> Result<Found, Fail>
    requires taken { IsTaken held.old store.now }
    requires step { IsInStep held.old (live journal.old.lines) }
    requires reps { AreRepresentatives held.old reps.now }
    requires rights { AreRightsOwn reps.now (λ n. rule_at held.old.equations.rules n) }
    requires some { waiting held.old.equations.queue ≡ [] → ⊥ }
    ensures leads { Leads store.now held.old journal.old held.new journal.new }
    ensures taken { OnOk result (IsTaken held.new store.now) }
    ensures step { OnOk result (IsInStep held.new (live journal.new.lines)) }
    ensures steps { result ≡ Err OutOfSteps → counted_in journal.new.lines ≡ journal.new.limit }
    ensures number { (wide : WideAt) → result ≡ Err (Number wide) → MayBeWide store.now held.old journal.old.lines journal.new.lines wide }
    ensures advanced { result ≡ Ok Advanced → counted_in journal.old.lines < counted_in journal.new.lines }
    ensures conflict { (k : ℕ) → result ≡ Ok (Conflict k) → IsOwnConflict held.new k }
    ensures stays { result ≡ Ok Nothing → held.new ≡ record held.old { equations = held.new.equations; justs = held.new.justs } }
    ensures rules { result ≡ Ok Nothing → held.new.equations.rules ≡ held.old.equations.rules }
    ensures pairs { result ≡ Ok Nothing → held.new.equations.pairs ≡ held.old.equations.pairs }
    ensures lines { result ≡ Ok Nothing → journal.new ≡ journal.old }
    ensures given_up { result ≡ Ok Nothing → waiting held.new.equations.queue ≡ drop 1 (waiting held.old.equations.queue) }
    ensures meets { (w : Waiting) → first_of (waiting held.old.equations.queue) ≡ Some w → result ≡ Ok Nothing → Meets reps.now (λ n. rule_at held.old.equations.rules n) w }
{
    let equation = reduced_first(alloc, held, store, reps)?;
    if are_equal(equation.left.as_slice(), equation.right.as_slice()) {
        held.equations.forget_first()?;
        return Ok(Found::Nothing);
    }
    if equation.left.len() < 2 {
        return solve(alloc, held, store, journal, reps, &equation);
    }
    orient(alloc, held, store, journal, reps, &equation)
}

/// Whether an equation waits.
fn waits(equations: &Equations) -> bool
    ensures yes { IsTrue result → waiting equations.now.queue ≡ [] → ⊥ }
    ensures no { result ≡ false → waiting equations.now.queue ≡ [] }
{
    equations.first().is_some()
}

/// Takes up the equations that wait, the oldest first, up to the first one that isn't given up. `Nothing` comes only where none waits any more.
///
/// `Steps` comes only where the journal was full, `Number` only with a width that it licenses. A refusal leaves what is held right.
pub fn first_waiting(
    alloc: Global,
    held: &mut Holding,
    store: &Store,
    journal: &mut Journal,
    reps: &[Name],
) -> Result<Found, Fail>
    requires taken { IsTaken held.old store.now }
    requires step { IsInStep held.old (live journal.old.lines) }
    requires reps { AreRepresentatives held.old reps.now }
    requires rights { AreRightsOwn reps.now (λ n. rule_at held.old.equations.rules n) }
    ensures leads { Leads store.now held.old journal.old held.new journal.new }
    ensures taken { OnOk result (IsTaken held.new store.now) }
    ensures step { OnOk result (IsInStep held.new (live journal.new.lines)) }
    ensures steps { result ≡ Err OutOfSteps → counted_in journal.new.lines ≡ journal.new.limit }
    ensures number { (wide : WideAt) → result ≡ Err (Number wide) → MayBeWide store.now held.old journal.old.lines journal.new.lines wide }
    ensures advanced { result ≡ Ok Advanced → counted_in journal.old.lines < counted_in journal.new.lines }
    ensures conflict { (k : ℕ) → result ≡ Ok (Conflict k) → IsOwnConflict held.new k }
    ensures stays { result ≡ Ok Nothing → held.new ≡ record held.old { equations = held.new.equations; justs = held.new.justs } }
    ensures rules { result ≡ Ok Nothing → held.new.equations.rules ≡ held.old.equations.rules }
    ensures pairs { result ≡ Ok Nothing → held.new.equations.pairs ≡ held.old.equations.pairs }
    ensures lines { result ≡ Ok Nothing → journal.new ≡ journal.old }
    ensures none { result ≡ Ok Nothing → waiting held.new.equations.queue ≡ [] }
    // Where none waits none is taken up.
    ensures idle { waiting held.old.equations.queue ≡ [] → result ≡ Ok Nothing }
{
    'turns: while waits(&held.equations) {
        match take_up_first(alloc, held, store, journal, reps)? {
            Found::Nothing => {}
            Found::Advanced => return Ok(Found::Advanced),
            Found::Conflict(number) => return Ok(Found::Conflict(number)),
        }
    }
    Ok(Found::Nothing)
}
