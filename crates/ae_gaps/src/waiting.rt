//! An equation that a step states is put behind those that wait, where none waits, and taken up.
ghost use Rattle.std.specs.Prelude.{◌≡◌, ◌<◌, ℕ, [], Ok, Err, OnOk};
ghost use Rattle.ae_conflicts.specs.Saying.{RestsOnAssumed};
ghost use Rattle.ae_equation_turns.specs.Said.{IsWaitingSaid};
ghost use Rattle.ae_equation_turns.specs.Turned.{AreRightsOwn};
ghost use Rattle.ae_equations.specs.Queued.{waiting};
ghost use Rattle.ae_gaps.specs.Inner.Idle.{IsIdle};
ghost use Rattle.ae_journal.specs.Journals.{live, counted_in};
ghost use Rattle.ae_journal.specs.declared.answers.WideAt.{WideAt};
ghost use Rattle.ae_monoid.specs.Rules.{rule_at};
ghost use Rattle.ae_orienting.specs.Meeting.{Meets};
ghost use Rattle.ae_pmap.specs.Forest.{present};
ghost use Rattle.ae_rule_lines.specs.InStep.{HasSource};
ghost use Rattle.ae_state.specs.Complete.{IsOwnConflict};
ghost use Rattle.ae_state.specs.Names.{all_terms, terms_now};
ghost use Rattle.ae_state.specs.Stepping.{equation as sides_of, IsInStep};
ghost use Rattle.ae_theory.specs.Names.{terms_in};
ghost use Rattle.ae_theory.specs.declared.theory.Fail.TheVariants.{Steps as OutOfSteps, Number};
ghost use Rattle.ae_turns.specs.Ending.{MayBeWide};
ghost use Rattle.ae_turns.specs.Leading.{Leads};
ghost use Rattle.ae_turns.specs.Representing.{IsTaken, AreRepresentatives};
ghost use Rattle.ae_turns.specs.declared.found.Found.TheVariants.{Nothing, Advanced, Conflict};

use ae_equations::Waiting;
use ae_journal::journal::Journal;
use ae_num::forms::Name;
use ae_orienting::take_up_first;
use ae_state::Holding;
use ae_store::store::Store;
use ae_theory::theory::Fail;
use ae_turns::Found;
use std::alloc::Global;

/// Takes up an equation that a step states, where none waits. `Nothing` comes only where its sides come down to one multiset.
///
/// `Steps` comes only where the journal was full, `Number` only with a width that it licenses. A refusal leaves what is held right.
pub(crate) fn take_up_equation(
    alloc: Global,
    held: &mut Holding,
    store: &Store,
    journal: &mut Journal,
    reps: &[Name],
    equation: Waiting,
) -> Result<Found, Fail>
    requires taken { IsTaken held.old store.now }
    requires step { IsInStep held.old (live journal.old.lines) }
    requires reps { AreRepresentatives held.old reps.now }
    requires rights { AreRightsOwn reps.now (λ n. rule_at held.old.equations.rules n) }
    requires none_waits { waiting held.old.equations.queue ≡ [] }
    requires said { IsWaitingSaid store.now.signature (terms_in store.now) held.old.justs equation }
    requires rests { RestsOnAssumed (all_terms held.old) held.old.justs (present held.old.assumed) equation.step }
    requires source { HasSource held.old.signature (terms_now held.old) (live journal.old.lines) (sides_of equation) }
    ensures leads { Leads store.now held.old journal.old held.new journal.new }
    ensures taken { OnOk result (IsTaken held.new store.now) }
    ensures step { OnOk result (IsInStep held.new (live journal.new.lines)) }
    ensures steps { result ≡ Err OutOfSteps → counted_in journal.new.lines ≡ journal.new.limit }
    ensures number { (wide : WideAt) → result ≡ Err (Number wide) → MayBeWide store.now held.old journal.old.lines journal.new.lines wide }
    ensures advanced { result ≡ Ok Advanced → counted_in journal.old.lines < counted_in journal.new.lines }
    ensures conflict { (k : ℕ) → result ≡ Ok (Conflict k) → IsOwnConflict held.new k }
    ensures idle { result ≡ Ok Nothing → IsIdle held.old journal.old held.new journal.new }
    ensures meets { result ≡ Ok Nothing → Meets reps.now (λ n. rule_at held.old.equations.rules n) equation }
{
    held.equations.push(equation)?;
    take_up_first(alloc, held, store, journal, reps)
}
