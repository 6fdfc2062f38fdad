//! Noting the line of an instance.
ghost use Rattle.std.specs.Prelude.{ℕ, suc, ◌≡◌, ◌<◌, ◌∷◌, ◌++◌, [], true, Some, Err, IfOk, OnOk};
ghost use Rattle.std.specs.List.{Contains};
ghost use Rattle.ae_between_rounds.specs.Between.{IsSearchingBelow, IsStopped};
ghost use Rattle.ae_block_constants.specs.declared.opened.Opened.{Opened as OpenedOf};
ghost use Rattle.ae_brought_clauses.specs.Brought.{AreBrought};
ghost use Rattle.ae_core.specs.Sorts.{formula_ok};
ghost use Rattle.ae_core.specs.declared.formulas.Formula.{out-Formula};
ghost use Rattle.ae_core.specs.declared.terms.Term.{Term as TermOf};
ghost use Rattle.ae_goal_names.specs.Named.{clause_terms};
ghost use Rattle.ae_journal.specs.Journals.{counted_in};
ghost use Rattle.ae_journal.specs.declared.answers.WideAt.{WideAt};
ghost use Rattle.ae_made_instances.specs.Inner.Beside.{IsBeside};
ghost use Rattle.ae_made_instances.specs.Inner.Noting.{Comes, IsNoted, IsReadyLine};
ghost use Rattle.ae_rules.specs.Clauses.{Clause as ClauseOf};
ghost use Rattle.ae_rules.specs.Derivations.{clause_ok};
ghost use Rattle.ae_rules.specs.Instances.{fresh_clause};
ghost use Rattle.ae_searching.specs.Steps.{IsInstanceLine, Lowers};
ghost use Rattle.ae_store.specs.Stores.{IsStore};
ghost use Rattle.ae_theory.specs.Names.{terms_in};
ghost use Rattle.ae_theory.specs.declared.theory.Fail.TheVariants.{Number, Steps as OutOfSteps};

use crate::lines::is_noted;
use ae_ages::entries::Aged;
use ae_between_rounds::search::{Search, State, Task};
use ae_brought_clauses::bring_clause;
use ae_core::lists::List;
use ae_instance_lines::lines::InstanceLine;
use ae_journal::journal::Journal;
use ae_journal::lines::Line;
use ae_opening::OpenedBlocks;
use ae_sat::solver::Solver;
use ae_searching::adding::add_line;
use ae_searching::levels::firing_level;
use ae_store::store::Store;
use ae_theory::theory::Fail;
use std::alloc::AllocError;

/// Whether one more counted line may be noted. It is asked before terms get names, so that a journal that is full has all names of the store.
fn has_room(journal: &Journal, steps: usize) -> Result<(), Fail>
    requires limit { journal.now.limit ≡ steps }
    ensures room { OnOk result (counted_in journal.now.lines < journal.now.limit) }
    ensures full { result ≡ Err OutOfSteps → counted_in journal.now.lines ≡ journal.now.limit }
    ensures never_wide { (wide : WideAt) → ¬ (result ≡ Err (Number wide)) }
{
    if journal.counted() < steps {
        Ok(())
    } else {
        Err(Fail::Steps)
    }
}

/// The level below which a search rests that rested below one, once the clause of a line comes in.
fn rest_level(solver: &Solver<State>, line: &InstanceLine, level: usize) -> usize
    ensures { Lowers solver.now.propagation.trail line.now.clause level result }
{
    match firing_level(solver.trail(), line.clause.as_slice()) {
        None => level,
        Some(least) => least.min(level),
    }
}

/// Brings what the clause of a line says, one generation above a number.
fn say(
    task: Task<'_>,
    store: &mut Store,
    ages: &mut List<Aged>,
    blocks: &OpenedBlocks,
    line: &InstanceLine,
    number: u32,
) -> Result<(), AllocError>
    requires same { task.problem.now.signature ≡ store.old.signature }
    requires sorted { clause_ok task.problem.now.signature line.now.clause ≡ true }
    requires blocks { (o : OpenedOf) → Contains blocks.now.opened o → formula_ok task.problem.now.signature o.formula ≡ true }
    requires there { (o : OpenedOf) (c : ClauseOf) (t : TermOf) → Contains blocks.now.opened o → fresh_clause o.formula o.first (out-Formula o.formula) ≡ Some c →
        Contains (clause_terms c) t → Contains (terms_in store.old) t }
    requires below { number < task.generations }
    ensures brought { OnOk result (AreBrought blocks.now.opened (suc number) store.old ages.old store.new ages.new line.now.clause) }
    ensures store { OnOk result (IsStore store.new.signature store.new.nodes) }
{
    let opened = blocks.opened.as_slice();
    let clause = line.clause.as_slice();
    bring_clause(
        task.alloc,
        &task.problem.signature,
        store,
        ages,
        opened,
        clause,
        number + 1,
    )?;
    let _names = store.len();
    Ok(())
}

/// Brings what the clause of a line that is there says, one generation above a number. No name comes in.
fn say_again(
    task: Task<'_>,
    search: &mut Search,
    line: &InstanceLine,
    number: u32,
) -> Result<(), AllocError>
    requires searching { (level : ℕ) × IsSearchingBelow task.problem.now task.goal task.generations level search.old }
    requires beside { IsBeside task.problem.now task.goal search.old }
    requires ready { IsReadyLine task.problem.now task.goal task.generations search.old line.now }
    requires below { number < task.generations }
    requires there { Contains search.old.journal.lines line.now.own }
    ensures searching { (level : ℕ) → IsSearchingBelow task.entry.problem.now task.entry.goal task.entry.generations level search.old →
        OnOk result (IsSearchingBelow task.entry.problem.now task.entry.goal task.entry.generations level search.new) }
    ensures noted { OnOk result (IsNoted task.entry.problem.now task.entry.goal number line.now search.old search.new) }
    ensures journal { search.new.journal ≡ search.old.journal }
{
    say(
        task,
        &mut search.store,
        &mut search.ages,
        &search.blocks,
        line,
        number,
    )?;
    Ok(())
}

/// Notes the line of an instance. There is room for it, and it takes no memory.
fn note_own(journal: &mut Journal, own: Line)
    requires instance { IsInstanceLine own }
    requires room { counted_in journal.old.lines < journal.old.limit }
    ensures { journal.new ≡ record journal.old { lines = journal.old.lines ++ own ∷ [] } }
{
    match journal.note(own) {
        Ok(()) => {}
        Err(_) => unreachable!(),
    }
}

/// Brings what the clause of a line that is new says, one generation above a number, notes the line and adds the clause. Answers below which level the search
/// rests then.
fn note_new(
    task: Task<'_>,
    search: &mut Search,
    line: InstanceLine,
    number: u32,
    level: usize,
) -> Result<usize, AllocError>
    requires searching { IsSearchingBelow task.problem.now task.goal task.generations level search.old }
    requires beside { IsBeside task.problem.now task.goal search.old }
    requires ready { IsReadyLine task.problem.now task.goal task.generations search.old line }
    requires below { number < task.generations }
    requires new { ¬ Contains search.old.journal.lines line.own }
    requires room { counted_in search.old.journal.lines < search.old.journal.limit }
    ensures searching { IfOk result (λ least. IsSearchingBelow task.entry.problem.now task.entry.goal task.entry.generations least search.new) }
    ensures comes { OnOk result (Comes (suc number) line search.old search.new) }
    ensures limit { search.new.journal.limit ≡ search.old.journal.limit }
{
    say(
        task,
        &mut search.store,
        &mut search.ages,
        &search.blocks,
        &line,
        number,
    )?;
    let least = rest_level(&search.solver, &line, level);
    let InstanceLine {
        own,
        statement,
        clause,
    } = line;
    let noted = own.into_inner();
    let stated = statement.into_inner();
    note_own(&mut search.journal, noted);
    add_line(&mut search.solver, &mut search.lines, stated, clause)?;
    Ok(least)
}

/// Brings what the clause of a line says, one generation above a number, and where the line is new, notes it and adds the clause. Answers below which level
/// the search rests then.
pub(crate) fn note_line(
    task: Task<'_>,
    search: &mut Search,
    line: InstanceLine,
    number: u32,
    level: usize,
) -> Result<usize, Fail>
    requires searching { IsSearchingBelow task.problem.now task.goal task.generations level search.old }
    requires beside { IsBeside task.problem.now task.goal search.old }
    requires limit { search.old.journal.limit ≡ task.steps }
    requires ready { IsReadyLine task.problem.now task.goal task.generations search.old line }
    requires below { number < task.generations }
    ensures searching { IfOk result (λ least. IsSearchingBelow task.entry.problem.now task.entry.goal task.entry.generations least search.new) }
    ensures noted { OnOk result (IsNoted task.entry.problem.now task.entry.goal number line search.old search.new) }
    ensures stopped { result ≡ Err OutOfSteps → IsStopped task.entry.problem.now task.entry.goal task.entry.generations search.new }
    ensures steps { result ≡ Err OutOfSteps → counted_in search.new.journal.lines ≡ search.new.journal.limit }
    ensures never_wide { (wide : WideAt) → ¬ (result ≡ Err (Number wide)) }
    ensures limit { search.new.journal.limit ≡ search.old.journal.limit }
{
    if is_noted(search.journal.lines(), line.own.get()) {
        say_again(task, search, &line, number)?;
        return Ok(level);
    }
    has_room(&search.journal, task.steps)?;
    Ok(note_new(task, search, line, number, level)?)
}
