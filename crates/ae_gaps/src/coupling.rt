//! Two rules are paired.
ghost use Rattle.std.specs.Prelude.{◌≡◌, ◌≢◌, ◌<◌, ◌++◌, ◌∷◌, [], ℕ, None, Some, IfOk, OnOk, OnErr, Err};
ghost use Rattle.ae_equations.specs.Paired.{partners};
ghost use Rattle.ae_equations.specs.Queued.{waiting};
ghost use Rattle.ae_equations.specs.Versions.{Lasts};
ghost use Rattle.ae_gaps.specs.Inner.Overlapping.{AreUnpaired};
ghost use Rattle.ae_journal.specs.Journals.{live, counted_in};
ghost use Rattle.ae_journal.specs.declared.answers.WideAt.{WideAt};
ghost use Rattle.ae_journal.specs.declared.lines.Line.TheVariants as line;
ghost use Rattle.ae_monoid.specs.Rules.{rule_at};
ghost use Rattle.ae_monoid.specs.declared.rules.Kept.{Kept as KeptView};
ghost use Rattle.ae_state.specs.Stepping.{paired_now, IsInStep};
ghost use Rattle.ae_theory.specs.declared.theory.Fail.TheVariants.{Steps as OutOfSteps, Number};
ghost use Rattle.ae_turns.specs.Leading.{Leads};
ghost use Rattle.ae_turns.specs.Representing.{IsTaken};

use crate::overlaps::overlap_equation;
use ae_core::copies::copy_sorts;
use ae_core::lists::List;
use ae_core::problems::AcSymbol;
use ae_equations::{Equations, Waiting};
use ae_journal::journal::{Journal, JournalFail};
use ae_journal::lines::Line;
use ae_monoid::Rules;
use ae_state::Holding;
use ae_store::store::Store;
use ae_theory::theory::Fail;
use std::alloc::{AllocError, Global};

/// Notes a line.
fn noted(journal: &mut Journal, line: Line) -> Result<(), Fail>
    ensures ok { OnOk result (journal.new ≡ record journal.old { lines = journal.old.lines ++ line ∷ [] }) }
    ensures err { OnErr result (journal.new ≡ journal.old) }
    ensures steps { result ≡ Err OutOfSteps → counted_in journal.old.lines ≡ journal.old.limit }
    ensures number { (wide : WideAt) → result ≡ Err (Number wide) → ⊥ }
{
    match journal.note(line) {
        Ok(()) => Ok(()),
        Err(JournalFail::Full) => Err(Fail::Steps),
        Err(JournalFail::Memory(failed)) => Err(Fail::Memory(failed)),
    }
}

/// The line that pairs two rules that stand.
fn pair_line(alloc: Global, rules: &Rules, first: usize, second: usize) -> Result<Line, AllocError>
    requires first { rule_at rules.now first ≡ None → ⊥ }
    requires second { rule_at rules.now second ≡ None → ⊥ }
    ensures { IfOk result (λ l. (d e : KeptView) → rule_at rules.now first ≡ Some d → rule_at rules.now second ≡ Some e
        → l ≡ line.Pair d.entry.symbol d.entry.left e.entry.left) }
{
    let Some(one) = rules.rule(first) else {
        return Err(AllocError);
    };
    let Some(other) = rules.rule(second) else {
        return Err(AllocError);
    };
    let symbol = AcSymbol {
        head: one.entry.symbol.head,
        sorts: copy_sorts(alloc, one.entry.symbol.sorts.as_slice())?,
    };
    let left = List::from_slice(alloc, one.entry.left.as_slice())?;
    let right = List::from_slice(alloc, other.entry.left.as_slice())?;
    Ok(Line::Pair {
        symbol,
        first: left,
        second: right,
    })
}

/// Notes that two rules that stand were paired, and puts the equation of their overlap behind those that wait.
fn enter_pair(
    equations: &mut Equations,
    first: usize,
    second: usize,
    equation: Waiting,
) -> Result<(), AllocError>
    requires first { rule_at equations.old.rules first ≡ None → ⊥ }
    requires second { rule_at equations.old.rules second ≡ None → ⊥ }
    ensures rules { equations.new.rules ≡ equations.old.rules }
    ensures paired { OnOk result (partners equations.new.pairs first ≡ second ∷ partners equations.old.pairs first) }
    ensures others { OnOk result ((n : ℕ) → n ≢ first → partners equations.new.pairs n ≡ partners equations.old.pairs n) }
    ensures ok { OnOk result (waiting equations.new.queue ≡ waiting equations.old.queue ++ equation ∷ []) }
    ensures err { OnErr result (waiting equations.new.queue ≡ waiting equations.old.queue) }
    ensures lasts { Lasts equations.old equations.new }
{
    equations.note_pair(first, second)?;
    equations.push(equation)
}

/// Pairs two rules that overlap: notes the line, and puts the equation of their overlap behind those that wait.
///
/// `Steps` comes only where the journal was full. A refusal leaves what is held right.
pub(crate) fn couple(
    alloc: Global,
    held: &mut Holding,
    store: &Store,
    journal: &mut Journal,
    first: usize,
    second: usize,
) -> Result<(), Fail>
    requires taken { IsTaken held.old store.now }
    requires step { IsInStep held.old (live journal.old.lines) }
    requires before { first < second }
    requires unpaired { AreUnpaired (λ n. rule_at held.old.equations.rules n) (paired_now held.old) first second }
    ensures leads { Leads store.now held.old journal.old held.new journal.new }
    ensures taken { OnOk result (IsTaken held.new store.now) }
    ensures step { OnOk result (IsInStep held.new (live journal.new.lines)) }
    ensures steps { result ≡ Err OutOfSteps → counted_in journal.new.lines ≡ journal.new.limit }
    ensures number { (wide : WideAt) → result ≡ Err (Number wide) → ⊥ }
    ensures advanced { OnOk result (counted_in journal.old.lines < counted_in journal.new.lines) }
{
    let _rule = held.equations.rules().rule(0);
    let rules = held.equations.rules();
    let stated = overlap_equation(alloc, &mut held.justs, store, rules, first, second)?;
    let Some(equation) = stated else {
        unreachable!()
    };
    let line = pair_line(alloc, held.equations.rules(), first, second)?;
    noted(journal, line)?;
    enter_pair(&mut held.equations, first, second, equation)?;
    Ok(())
}
