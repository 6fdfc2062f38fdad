//! Rules that go, with the lines that say so.
ghost use Rattle.std.specs.Prelude.{◌≡◌, ◌++◌, ℕ, map, Some, IfOk, OnOk};
ghost use Rattle.ae_journal.specs.Journals.{live, counted_in};
ghost use Rattle.ae_monoid.specs.Changes.{IsReducible};
ghost use Rattle.ae_monoid.specs.Rules.{rule_at};
ghost use Rattle.ae_monoid.specs.declared.rules.Kept.{Kept};
ghost use Rattle.ae_rule_changes.specs.Entries.{entry_of};
ghost use Rattle.ae_rule_passes.specs.Passes.{drop_line};
ghost use Rattle.ae_settled.specs.Swept.{AreOwn};
ghost use Rattle.ae_sweeps.specs.Given.{rep_in};
ghost use Rattle.ae_state.specs.Stepping.{IsInStep};
ghost use Rattle.ae_turns.specs.Budget.{MayNote};
ghost use Rattle.ae_turns.specs.Leading.{Leads};
ghost use Rattle.ae_turns.specs.Representing.{IsTaken, AreRepresentatives};
ghost use Rattle.ae_turns.specs.Inner.Drops.{IsDropNoted};

use ae_core::copies::copy_sorts;
use ae_core::lists::List;
use ae_core::problems::AcSymbol;
use ae_journal::journal::Journal;
use ae_journal::lines::{Line, Oriented};
use ae_monoid::PendingPair;
use ae_name_lines::laws::least_names_represent;
use ae_num::forms::Name;
use ae_state::Holding;
use ae_store::store::Store;
use std::alloc::{AllocError, Global};

/// The line that drops a rule.
fn drop_from(alloc: Global, pair: &PendingPair) -> Result<Line, AllocError>
    ensures { IfOk result (λ line. line ≡ drop_line (entry_of pair.now)) }
{
    Ok(Line::Drop(Oriented::Rule {
        symbol: AcSymbol {
            head: pair.symbol.head,
            sorts: copy_sorts(alloc, pair.symbol.sorts.as_slice())?,
        },
        left: List::from_vec(Vec::from_slice(alloc, pair.left.as_slice())?),
        right: List::from_vec(Vec::from_slice(alloc, pair.right.as_slice())?),
    }))
}

/// Notes the lines that drop rules. A refusal leaves those of the first ones noted.
fn note_drops(alloc: Global, journal: &mut Journal, pairs: &[PendingPair]) -> Result<(), AllocError>
    ensures noted { IsDropNoted journal.old journal.new (map entry_of pairs.now) }
    ensures all { OnOk result (journal.new ≡ record journal.old { lines = journal.old.lines ++ map drop_line (map entry_of pairs.now) }) }
{
    for pair in pairs {
        let line = drop_from(alloc, pair)?;
        match journal.note(line) {
            Ok(()) => {}
            Err(_) => return Err(AllocError),
        }
    }
    Ok(())
}

/// Takes out the rules whose left sides have a name that isn't its own representative, and notes that they are dropped; their equations wait from then
/// on. A refusal leaves what is held right, and lines that were noted legal.
pub fn release(
    alloc: Global,
    held: &mut Holding,
    store: &Store,
    journal: &mut Journal,
    reps: &[Name],
) -> Result<(), AllocError>
    requires taken { IsTaken held.old store.now }
    requires reps { AreRepresentatives held.old reps.now }
    requires step { IsInStep held.old (live journal.old.lines) }
    ensures leads { Leads store.now held.old journal.old held.new journal.new }
    ensures step { OnOk result (IsInStep held.new (live journal.new.lines)) }
    ensures others { held.new ≡ record held.old { equations = held.new.equations } }
    ensures counted { counted_in journal.new.lines ≡ counted_in journal.old.lines }
    ensures budget { (n : ℕ) → MayNote held.old store.now n → MayNote held.new store.now n }
    ensures stay { (n : ℕ) (rule : Kept) → rule_at held.new.equations.rules n ≡ Some rule → rule_at held.old.equations.rules n ≡ Some rule }
    ensures own { OnOk result ((n : ℕ) (rule : Kept) → rule_at held.new.equations.rules n ≡ Some rule → AreOwn (rep_in reps.now) rule.entry.left) }
{
    least_names_represent();
    let _names = store.len();
    let _rule = held.equations.rules().rule(0);
    let pairs = held.equations.release_stale(reps)?;
    note_drops(alloc, journal, pairs.as_slice())
}

/// Takes out the rules whose left sides another rule reduces, and notes that they are dropped; their equations wait from then on. A refusal leaves what
/// is held right, and lines that were noted legal.
pub fn collapse(
    alloc: Global,
    held: &mut Holding,
    store: &Store,
    journal: &mut Journal,
) -> Result<(), AllocError>
    requires taken { IsTaken held.old store.now }
    requires step { IsInStep held.old (live journal.old.lines) }
    ensures leads { Leads store.now held.old journal.old held.new journal.new }
    ensures step { OnOk result (IsInStep held.new (live journal.new.lines)) }
    ensures others { held.new ≡ record held.old { equations = held.new.equations } }
    ensures counted { counted_in journal.new.lines ≡ counted_in journal.old.lines }
    ensures budget { (n : ℕ) → MayNote held.old store.now n → MayNote held.new store.now n }
    ensures stay { (n : ℕ) (rule : Kept) → rule_at held.new.equations.rules n ≡ Some rule → rule_at held.old.equations.rules n ≡ Some rule }
    ensures alone { OnOk result ((n : ℕ) → IsReducible (λ m. rule_at held.new.equations.rules m) n → ⊥) }
{
    let _names = store.len();
    let _rule = held.equations.rules().rule(0);
    let pairs = held.equations.collapse()?;
    note_drops(alloc, journal, pairs.as_slice())
}
