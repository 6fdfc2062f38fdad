//! Rules.
ghost use Rattle.std.specs.Prelude.{◌≡◌, ◌<◌, ◌≤◌, ◌++◌, ◌∷◌, [], ℕ, length, Ok, Err, IfOk, OnOk, OnErr};
ghost use Rattle.ae_journal.specs.Journals.{live, counted_in};
ghost use Rattle.ae_journal.specs.declared.answers.WideAt.{WideAt};
ghost use Rattle.ae_journal.specs.declared.lines.Line.TheVariants as line;
ghost use Rattle.ae_journal.specs.declared.lines.Oriented.TheVariants as oriented;
ghost use Rattle.ae_multiset.specs.Multisets.{IsLess};
ghost use Rattle.ae_state.specs.Complete.{IsOwnConflict};
ghost use Rattle.ae_state.specs.Stepping.{IsInStep};
ghost use Rattle.ae_theory.specs.declared.theory.Fail.TheVariants.{Steps as OutOfSteps, Number};
ghost use Rattle.ae_turns.specs.declared.found.Found.TheVariants.{Nothing, Advanced, Conflict};
ghost use Rattle.ae_turns.specs.Ending.{MayBeWide};
ghost use Rattle.ae_turns.specs.Leading.{Leads};
ghost use Rattle.ae_turns.specs.Representing.{IsTaken, AreRepresentatives};
ghost use Rattle.ae_orienting.specs.Inner.Reduced.{IsFirstReduced};

use crate::turning::copy_symbol;
use ae_core::lists::List;
use ae_equations::Waiting;
use ae_journal::journal::{Journal, JournalFail};
use ae_journal::lines::{Line, Oriented};
use ae_name_lines::laws::least_names_represent;
use ae_num::forms::Name;
use ae_state::Holding;
use ae_store::store::Store;
use ae_theory::theory::Fail;
use ae_turns::Found;
use std::alloc::{AllocError, Global};

/// The line that the equation becomes a rule.
fn rule_line(alloc: Global, equation: &Waiting) -> Result<Line, AllocError>
    ensures { IfOk result (λ j. j ≡ line.Orient (oriented.Rule equation.now.symbol equation.now.left equation.now.right)) }
{
    Ok(Line::Orient(Oriented::Rule {
        symbol: copy_symbol(alloc, &equation.symbol)?,
        left: List::from_slice(alloc, equation.left.as_slice())?,
        right: List::from_slice(alloc, equation.right.as_slice())?,
    }))
}

/// Notes the line that the equation becomes a rule.
fn note_rule(alloc: Global, journal: &mut Journal, equation: &Waiting) -> Result<(), Fail>
    ensures ok { OnOk result (journal.new ≡ record journal.old { lines = journal.old.lines ++ line.Orient (oriented.Rule equation.now.symbol equation.now.left equation.now.right) ∷ [] }) }
    ensures err { OnErr result (journal.new ≡ journal.old) }
    ensures steps { result ≡ Err OutOfSteps → counted_in journal.new.lines ≡ journal.new.limit }
    ensures number { (wide : WideAt) → result ≡ Err (Number wide) → ⊥ }
{
    let line = rule_line(alloc, equation)?;
    match journal.note(line) {
        Ok(()) => Ok(()),
        Err(JournalFail::Full) => Err(Fail::Steps),
        Err(JournalFail::Memory(refused)) => Err(Fail::Memory(refused)),
    }
}

/// Makes a rule of the oldest equation, from the larger side to the smaller one, and notes so first.
pub(crate) fn orient(
    alloc: Global,
    held: &mut Holding,
    store: &Store,
    journal: &mut Journal,
    reps: &[Name],
    equation: &Waiting,
) -> Result<Found, Fail>
    requires taken { IsTaken held.old store.now }
    requires step { IsInStep held.old (live journal.old.lines) }
    requires reps { AreRepresentatives held.old reps.now }
    requires first { IsFirstReduced store.now held.old reps.now equation.now }
    requires falls { IsLess equation.now.right equation.now.left }
    requires two { 2 ≤ length equation.now.left }
    ensures leads { Leads store.now held.old journal.old held.new journal.new }
    ensures taken { OnOk result (IsTaken held.new store.now) }
    ensures step { OnOk result (IsInStep held.new (live journal.new.lines)) }
    ensures steps { result ≡ Err OutOfSteps → counted_in journal.new.lines ≡ journal.new.limit }
    ensures number { (wide : WideAt) → result ≡ Err (Number wide) → MayBeWide store.now held.old journal.old.lines journal.new.lines wide }
    ensures advanced { result ≡ Ok Advanced → counted_in journal.old.lines < counted_in journal.new.lines }
    ensures conflict { (k : ℕ) → result ≡ Ok (Conflict k) → IsOwnConflict held.new k }
    ensures never { result ≡ Ok Nothing → ⊥ }
{
    least_names_represent();
    // what is said of all rules, and of their pairs
    let _rule = held.equations.rules().rule(0);
    note_rule(alloc, journal, equation)?;
    let left = equation.left.as_slice();
    let right = equation.right.as_slice();
    held.equations
        .orient_first(&equation.symbol, left, right, equation.step)?;
    Ok(Found::Advanced)
}
