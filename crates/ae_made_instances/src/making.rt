//! Making an instance.
ghost use Rattle.std.specs.Prelude.{ℕ, ◌≡◌, ◌<◌, ◌≤◌, [], length, map, slice_get, Some, None, false, Err, IfOk, OnOk};
ghost use Rattle.std.specs.List.{Contains, list_any};
ghost use Rattle.ae_between_rounds.specs.Between.{Holds, IsSearchingBelow, IsStopped};
ghost use Rattle.ae_between_rounds.specs.declared.search.Search.{Search as SearchValue};
ghost use Rattle.ae_core.specs.Signatures.{IsLawfulProblem};
ghost use Rattle.ae_inst.specs.Matches.{is_match};
ghost use Rattle.ae_journal.specs.Journals.{counted_in};
ghost use Rattle.ae_journal.specs.States.{of_axiom};
ghost use Rattle.ae_journal.specs.declared.answers.WideAt.{WideAt};
ghost use Rattle.ae_journal.specs.declared.lines.Line.TheVariants as line_variants;
ghost use Rattle.ae_made_instances.specs.Inner.Beside.{IsBeside, IsInBatch};
ghost use Rattle.ae_made_instances.specs.Inner.Making.{IsBodyNoted, IsDue, IsDueOwed, IsMade};
ghost use Rattle.ae_made_instances.specs.Inner.Noting.{Came, GoesOn};
ghost use Rattle.ae_owners.specs.Owners.{owner_of};
ghost use Rattle.ae_owners.specs.declared.owners.Owner.{Owner as OwnerEntry};
ghost use Rattle.ae_store.specs.Shapes.{shapes};
ghost use Rattle.ae_store.specs.Terms.{named, terms};
ghost use Rattle.ae_theory.specs.declared.theory.Fail.TheVariants.{Number, Steps as OutOfSteps};
ghost use Rattle.ae_value_table.specs.Alike.{alike};

use crate::lines::{axiom_line, body_line, literal_line, place_of, terms_of};
use crate::noting::note_line;
use ae_between_rounds::search::{Instance, Owed, Search, Task};
use ae_core::lists::List;
use ae_core::terms::{Sort, Term};
use ae_entered_names::enter_names;
use ae_theory::theory::Fail;
use ae_trigger::patterns::Subst;
use std::alloc::AllocError;

/// Makes the instance of a universal literal: its line.
fn note_literal(
    task: Task<'_>,
    search: &mut Search,
    owner: usize,
    terms: &List<Term>,
    number: u32,
    level: usize,
) -> Result<usize, Fail>
    requires searching { IsSearchingBelow task.problem.now task.goal task.generations level search.old }
    requires beside { IsBeside task.problem.now task.goal search.old }
    requires limit { search.old.journal.limit ≡ task.steps }
    requires below { number < task.generations }
    requires at { (o : OwnerEntry) × (slice_get search.old.owners owner ≡ Some o) × (o.place ≡ None) × IsDue task.problem.now task.goal search.old number (owner_of o) [] terms.now }
    ensures searching { IfOk result (λ least. IsSearchingBelow task.entry.problem.now task.entry.goal task.entry.generations least search.new) }
    ensures made { (o : OwnerEntry) → slice_get search.old.owners owner ≡ Some o → OnOk result (IsMade task.entry.problem.now task.entry.goal number (owner_of o) [] terms.now search.old search.new) }
    ensures stopped { result ≡ Err OutOfSteps → IsStopped task.entry.problem.now task.entry.goal task.entry.generations search.new }
    ensures steps { result ≡ Err OutOfSteps → counted_in search.new.journal.lines ≡ search.new.journal.limit }
    ensures never_wide { (wide : WideAt) → ¬ (result ≡ Err (Number wide)) }
    ensures limit { search.new.journal.limit ≡ search.old.journal.limit }
{
    let line = literal_line(task, &search.owners, owner, terms)?;
    note_line(task, search, line, number, level)
}

/// Notes the line of the body of an axiom's formula with sorts put, where the formula is a block for all values.
fn note_body(
    task: Task<'_>,
    search: &mut Search,
    place: usize,
    sorts: &List<Sort>,
    terms: &List<Term>,
    number: u32,
    level: usize,
) -> Result<usize, Fail>
    requires lawful { IsLawfulProblem task.problem.now }
    requires searching { IsSearchingBelow task.problem.now task.goal task.generations level search.old }
    requires beside { IsBeside task.problem.now task.goal search.old }
    requires limit { search.old.journal.limit ≡ task.steps }
    requires below { number < task.generations }
    requires due { IsDue task.problem.now task.goal search.old number (of_axiom place) sorts.now terms.now }
    requires typed { Contains search.old.journal.lines (line_variants.TypeInstance place sorts.now) }
    ensures searching { IfOk result (λ least. IsSearchingBelow task.entry.problem.now task.entry.goal task.entry.generations least search.new) }
    ensures noted { OnOk result (IsBodyNoted task.entry.problem.now task.entry.goal number place sorts.now terms.now search.old search.new) }
    ensures stopped { result ≡ Err OutOfSteps → IsStopped task.entry.problem.now task.entry.goal task.entry.generations search.new }
    ensures steps { result ≡ Err OutOfSteps → counted_in search.new.journal.lines ≡ search.new.journal.limit }
    ensures never_wide { (wide : WideAt) → ¬ (result ≡ Err (Number wide)) }
    ensures limit { search.new.journal.limit ≡ search.old.journal.limit }
{
    match body_line(task, place, sorts, terms)? {
        None => Ok(level),
        Some(line) => note_line(task, search, line, number, level),
    }
}

/// Makes the instance of an axiom: the line with its sorts, and where its formula is a block for all values that of the body.
fn note_axiom(
    task: Task<'_>,
    search: &mut Search,
    place: usize,
    sorts: &List<Sort>,
    terms: &List<Term>,
    number: u32,
    level: usize,
) -> Result<usize, Fail>
    requires lawful { IsLawfulProblem task.problem.now }
    requires searching { IsSearchingBelow task.problem.now task.goal task.generations level search.old }
    requires beside { IsBeside task.problem.now task.goal search.old }
    requires limit { search.old.journal.limit ≡ task.steps }
    requires below { number < task.generations }
    requires due { IsDue task.problem.now task.goal search.old number (of_axiom place) sorts.now terms.now }
    ensures searching { IfOk result (λ least. IsSearchingBelow task.entry.problem.now task.entry.goal task.entry.generations least search.new) }
    ensures made { OnOk result (IsMade task.entry.problem.now task.entry.goal number (of_axiom place) sorts.now terms.now search.old search.new) }
    ensures stopped { result ≡ Err OutOfSteps → IsStopped task.entry.problem.now task.entry.goal task.entry.generations search.new }
    ensures steps { result ≡ Err OutOfSteps → counted_in search.new.journal.lines ≡ search.new.journal.limit }
    ensures never_wide { (wide : WideAt) → ¬ (result ≡ Err (Number wide)) }
    ensures limit { search.new.journal.limit ≡ search.old.journal.limit }
{
    let line = axiom_line(task, place, sorts)?;
    let level = note_line(task, search, line, number, level)?;
    note_body(task, search, place, sorts, terms, number, level)
}

/// Makes an instance of an owner.
fn note_instance(
    task: Task<'_>,
    search: &mut Search,
    owner: usize,
    subst: &Subst,
    number: u32,
    level: usize,
) -> Result<usize, Fail>
    requires lawful { IsLawfulProblem task.problem.now }
    requires searching { IsSearchingBelow task.problem.now task.goal task.generations level search.old }
    requires beside { IsBeside task.problem.now task.goal search.old }
    requires limit { search.old.journal.limit ≡ task.steps }
    requires below { number < task.generations }
    requires due { IsDueOwed task.problem.now task.goal search.old number (record { owner = owner; subst = subst.now }) }
    ensures searching { IfOk result (λ least. IsSearchingBelow task.entry.problem.now task.entry.goal task.entry.generations least search.new) }
    ensures made { (o : OwnerEntry) → slice_get search.old.owners owner ≡ Some o →
        OnOk result (IsMade task.entry.problem.now task.entry.goal number (owner_of o) subst.now.sorts (map (named (terms (shapes search.old.store.nodes))) subst.now.terms) search.old search.new) }
    ensures stopped { result ≡ Err OutOfSteps → IsStopped task.entry.problem.now task.entry.goal task.entry.generations search.new }
    ensures steps { result ≡ Err OutOfSteps → counted_in search.new.journal.lines ≡ search.new.journal.limit }
    ensures never_wide { (wide : WideAt) → ¬ (result ≡ Err (Number wide)) }
    ensures limit { search.new.journal.limit ≡ search.old.journal.limit }
{
    let terms = terms_of(task.alloc, &search.store, &subst.terms)?;
    match place_of(&search.owners, owner) {
        Some(place) => note_axiom(task, search, place, &subst.sorts, &terms, number, level),
        None => note_literal(task, search, owner, &terms, number, level),
    }
}

/// Enters the names that came in.
fn enter_new(task: Task<'_>, search: &mut Search) -> Result<(), AllocError>
    requires searching { (level : ℕ) × IsSearchingBelow task.problem.now task.goal task.generations level search.old }
    requires holds { Holds task.problem.now task.goal task.generations search.old }
    ensures batch { (level : ℕ) → IsSearchingBelow task.entry.problem.now task.entry.goal task.entry.generations level search.old → OnOk result (IsInBatch task.entry.problem.now task.entry.goal task.entry.generations level search.new) }
    ensures goes_on { OnOk result (GoesOn search.old search.new) }
    ensures came { (first : SearchValue) → search.old.looked ≡ length first.store.nodes → Came first search.old → OnOk result (Came first search.new) }
    ensures instances { search.new.instances ≡ search.old.instances }
    ensures journal { search.new.journal ≡ search.old.journal }
{
    let count = search.store.len();
    if search.looked == count {
        return Ok(());
    }
    enter_names(task, search)?;
    Ok(())
}

/// Makes an instance that is owed, unless one that is the same was made by now. Answers below which level the search rests then.
pub(crate) fn make_one(
    task: Task<'_>,
    search: &mut Search,
    owed: Owed,
    number: u32,
    level: usize,
) -> Result<usize, Fail>
    requires lawful { IsLawfulProblem task.problem.now }
    requires batch { IsInBatch task.problem.now task.goal task.generations level search.old }
    requires limit { search.old.journal.limit ≡ task.steps }
    requires below { number < task.generations }
    requires due { IsDueOwed task.problem.now task.goal search.old number owed }
    ensures batch { IfOk result (λ least. IsInBatch task.entry.problem.now task.entry.goal task.entry.generations least search.new) }
    ensures goes_on { OnOk result (GoesOn search.old search.new) }
    ensures came { OnOk result (Came search.old search.new) }
    ensures made { OnOk result (length search.old.instances.made ≤ length search.new.instances.made) }
    // One that no other is the same as is made.
    ensures first { list_any (is_match (alike search.old.solver.theory.values) owed.owner owed.subst) search.old.instances.taken.taken ≡ false →
        OnOk result (length search.old.instances.made < length search.new.instances.made) }
    ensures stopped { result ≡ Err OutOfSteps → IsStopped task.entry.problem.now task.entry.goal task.entry.generations search.new }
    ensures steps { result ≡ Err OutOfSteps → counted_in search.new.journal.lines ≡ search.new.journal.limit }
    ensures never_wide { (wide : WideAt) → ¬ (result ≡ Err (Number wide)) }
    ensures limit { search.new.journal.limit ≡ search.old.journal.limit }
{
    let Owed { owner, subst } = owed;
    let first = search
        .instances
        .taken
        .take(&search.store, search.solver.theory(), owner, &subst)?;
    if !first {
        return Ok(level);
    }
    let level = note_instance(task, search, owner, &subst, number, level)?;
    search.instances.made.push(Instance {
        owner,
        subst,
        number,
    })?;
    enter_new(task, search)?;
    Ok(level)
}
