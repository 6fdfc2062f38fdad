//! Making all instances of a batch.
ghost use Rattle.std.specs.Prelude.{ℕ, ◌≡◌, ◌<◌, length, slice_get, true, false, Some, Ok, Err, IfOk, OnOk};
ghost use Rattle.std.specs.List.{AllByRecursion, remove};
ghost use Rattle.ae_between_rounds.specs.Between.{IsBetweenRounds, IsStopped};
ghost use Rattle.ae_between_rounds.specs.Finished.{IsOpenSearch};
ghost use Rattle.ae_between_rounds.specs.Owed.{AreOwed};
ghost use Rattle.ae_core.specs.Signatures.{IsLawfulProblem};
ghost use Rattle.ae_journal.specs.Journals.{counted_in};
ghost use Rattle.ae_journal.specs.declared.answers.WideAt.{WideAt};
ghost use Rattle.ae_made_instances.specs.Inner.Beside.{IsInBatch};
ghost use Rattle.ae_made_instances.specs.Inner.Making.{HasMade, IsDueOwed};
ghost use Rattle.ae_made_instances.specs.Inner.Noting.{Came, GoesOn};
ghost use Rattle.ae_searching.specs.Steps.{NotesNoCombination};
ghost use Rattle.ae_theory.specs.declared.theory.Fail.TheVariants.{Number, Steps as OutOfSteps};

use crate::making::make_one;
use ae_alike_names::laws::alike_names_hold;
use ae_between_rounds::search::{Owed, OwedAt, Search, Task};
use ae_core::lists::List;
use ae_propagation::settle::level_now;
use ae_searching::returning::return_to;
use ae_theory::theory::Fail;

/// Takes the next one of those that are owed, by the rank.
fn take_next(task: Task<'_>, turn: &mut usize, left: &mut List<Owed>) -> Owed
    requires some { 0 < length left.old }
    ensures { (k : ℕ) × (slice_get left.old k ≡ Some result) × (left.new ≡ remove left.old k) }
{
    let now = *turn;
    *turn = now.wrapping_add(1);
    left.remove(task.rank.ask(left.len(), now))
}

/// Makes all that are owed, in the order of the rank. Answers below which level the search rests then.
fn make_all(
    task: Task<'_>,
    search: &mut Search,
    owed: List<Owed>,
    number: u32,
) -> Result<usize, Fail>
    requires lawful { IsLawfulProblem task.problem.now }
    requires between { IsBetweenRounds task.problem.now task.goal task.generations search.old }
    requires limit { search.old.journal.limit ≡ task.steps }
    requires below { number < task.generations }
    requires due { AllByRecursion (IsDueOwed task.problem.now task.goal search.old number) owed }
    requires made { HasMade search.old search.old owed }
    ensures batch { IfOk result (λ least. IsInBatch task.entry.problem.now task.entry.goal task.entry.generations least search.new) }
    ensures goes_on { OnOk result (GoesOn search.old search.new) }
    ensures came { OnOk result (Came search.old search.new) }
    ensures made { OnOk result (length search.old.instances.made < length search.new.instances.made) }
    ensures stopped { result ≡ Err OutOfSteps → IsStopped task.entry.problem.now task.entry.goal task.entry.generations search.new }
    ensures steps { result ≡ Err OutOfSteps → counted_in search.new.journal.lines ≡ search.new.journal.limit }
    ensures never_wide { (wide : WideAt) → ¬ (result ≡ Err (Number wide)) }
    ensures limit { search.new.journal.limit ≡ search.old.journal.limit }
{
    let mut left = owed;
    let mut level = level_now(search.solver.trail());
    'left: while !left.is_empty() {
        let next = take_next(task, &mut search.instances.turn, &mut left);
        level = make_one(task, search, next, number, level)?;
    }
    Ok(level)
}

/// Makes the instances that are owed at a number, in the order of the rank, each unless one that is the same was made by now. `true` where a line was noted:
/// the search has gone back then as far as the clauses ask for. `Steps` where the journal is full.
pub fn make_owed(task: Task<'_>, search: &mut Search, found: OwedAt) -> Result<bool, Fail>
    requires lawful { IsLawfulProblem task.problem.now }
    requires between { IsBetweenRounds task.problem.now task.goal task.generations search.old }
    requires is_open { IsOpenSearch search.old }
    requires limit { search.old.journal.limit ≡ task.steps }
    requires found { AreOwed task.problem.now task.goal task.generations search.old found }
    ensures between { OnOk result (IsBetweenRounds task.entry.problem.now task.entry.goal task.entry.generations search.new) }
    ensures lines { result ≡ Ok true → length search.old.lines.items < length search.new.lines.items }
    // Where no line was noted, nothing is left to do for the solver.
    ensures none { result ≡ Ok false → IsOpenSearch search.new × (search.new.solver ≡ search.old.solver) × (search.new.journal ≡ search.old.journal) × (search.new.lines ≡ search.old.lines) × (search.new.blocks ≡ search.old.blocks) }
    ensures made { OnOk result (length search.old.instances.made < length search.new.instances.made) }
    // Lines of instances were noted, and perhaps one that goes back.
    ensures noted { result ≡ Ok true → NotesNoCombination search.old.journal.lines search.new.journal.lines × (length search.old.journal.lines < length search.new.journal.lines) }
    // Lines of instances are counted.
    ensures counted { result ≡ Ok true → counted_in search.old.journal.lines < counted_in search.new.journal.lines }
    ensures stopped { result ≡ Err OutOfSteps → IsStopped task.entry.problem.now task.entry.goal task.entry.generations search.new }
    ensures steps { result ≡ Err OutOfSteps → counted_in search.new.journal.lines ≡ search.new.journal.limit }
    ensures never_wide { (wide : WideAt) → ¬ (result ≡ Err (Number wide)) }
    ensures limit { search.new.journal.limit ≡ search.old.journal.limit }
{
    let OwedAt { number, owed } = found;
    alike_names_hold();
    let before = search.lines.len();
    let level = make_all(task, search, owed, number)?;
    if search.lines.len() == before {
        return Ok(false);
    }
    return_to(&mut search.solver, &mut search.journal, level)?;
    Ok(true)
}
