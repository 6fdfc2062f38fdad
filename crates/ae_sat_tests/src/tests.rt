//! Propositional problems and pigeonholes, over the theory of constants. An atom is an equation between two fresh constants.
ghost use Rattle.std.specs.Prelude.{◌≡◌, ◌≤◌, ◌<◌, [], IfOk, OnOk, IsTrue};
ghost use Rattle.std.specs.List.{Contains};
ghost use Rattle.ae_core.specs.Signatures.{IsLawful};
ghost use Rattle.ae_store.specs.Stores.{Stored};
ghost use Rattle.ae_theory.specs.Names.{AreNamed, terms_in};
ghost use Rattle.ae_sat.specs.Search.{AllNamed, IsAlive};
ghost use Rattle.ae_sat_tests.specs.Names.{IsNamed};

use ae_core::copies::copy_clause;
use ae_core::formulas::{Clause, Formula, Lit};
use ae_core::lists::{Boxed, List};
use ae_core::problems::Signature;
use ae_core::proofs::ClauseLine;
use ae_core::sorts::trigger_ok;
use ae_core::terms::{Sort, Term};
use ae_journal::journal::Journal;
use ae_sat::run::SatEnd;
use ae_sat::solver::Solver;
use ae_search_options::picks::Pick;
use ae_store::store::Store;
use ae_theory::constants::Constants;
use ae_theory::naming::name_of;
use ae_theory::theory::{Fail, Theory};
use std::alloc::{AllocError, Global};
use std::test::Fail as TestFail;

/// How a search ended.
#[derive(Clone, Copy, Debug, PartialEq, Eq)]
enum Answer {
    Refuted,
    Open,
    /// The journal was full; it has so many counted lines.
    Steps(usize),
    Number,
}

/// Which of the literals to decide.
#[derive(Clone, Copy, Debug)]
enum Which {
    First,
    Last,
    Mixed,
}

/// A goal, to be proved from nothing.
#[derive(Clone, Copy, Debug)]
enum Goal {
    Contraposition,
    OneOfTwo,
    Exclusion,
}

const WAYS: [Which; 3] = [Which::First, Which::Last, Which::Mixed];

fn constant(alloc: Global, number: usize) -> Result<Term, AllocError> {
    let sort = Boxed::new(alloc, Sort::Int)?;
    Ok(Term::Fresh { number, sort })
}

fn signature(alloc: Global) -> Signature
    ensures { IsLawful result }
{
    Signature {
        types: List::new(alloc),
        symbols: List::new(alloc),
    }
}

/// Gives a constant a name.
fn enter(
    alloc: Global,
    store: &mut Store,
    signature: &Signature,
    number: usize,
) -> Result<(), AllocError>
    requires { signature.now ≡ store.old.signature }
    ensures { store.new.signature ≡ store.old.signature }
{
    let term = constant(alloc, number)?;
    if trigger_ok(alloc, signature, &term, &[])? {
        store.intern(signature, &term, 0)?;
    }
    Ok(())
}

/// A store with the names of the first constants.
fn store_of(alloc: Global, count: usize) -> Result<Store, AllocError> {
    let signature = signature(alloc);
    let mut store = Store::new(alloc, &signature)?;
    for number in 0..count {
        enter(alloc, &mut store, &signature, number)?;
    }
    Ok(store)
}

/// Whether a term has a name.
fn has_name(store: &Store, term: &Term) -> Result<bool, AllocError>
    ensures { IfOk result (λ r. IsTrue r → Contains (terms_in store.now) term.now) }
{
    let name = name_of(store, term)?;
    Ok(name.is_some())
}

/// The equation of two constants, or `True` where the store has no name for one of them.
#[tactic(auto, using(crate::proofs::Named::named_true))]
fn equation(alloc: Global, store: &Store, left: usize, right: usize) -> Result<Formula, AllocError>
    ensures { IfOk result (AreNamed store.now) }
{
    let left = constant(alloc, left)?;
    let right = constant(alloc, right)?;
    if !has_name(store, &left)? {
        return Ok(Formula::True);
    }
    if !has_name(store, &right)? {
        return Ok(Formula::True);
    }
    Ok(Formula::Eq { left, right })
}

fn not(alloc: Global, part: Formula) -> Result<Formula, AllocError>
    ensures { IfOk result (λ f. (s : Stored) → AreNamed s part → AreNamed s f) }
{
    Ok(Formula::Not(Boxed::new(alloc, part)?))
}

fn or(alloc: Global, left: Formula, right: Formula) -> Result<Formula, AllocError>
    ensures { IfOk result (λ f. (s : Stored) → AreNamed s left → AreNamed s right → AreNamed s f) }
{
    let left = Boxed::new(alloc, left)?;
    Ok(Formula::Or(left, Boxed::new(alloc, right)?))
}

fn xor(alloc: Global, left: Formula, right: Formula) -> Result<Formula, AllocError>
    ensures { IfOk result (λ f. (s : Stored) → AreNamed s left → AreNamed s right → AreNamed s f) }
{
    let left = Boxed::new(alloc, left)?;
    Ok(Formula::Xor(left, Boxed::new(alloc, right)?))
}

fn iff(alloc: Global, left: Formula, right: Formula) -> Result<Formula, AllocError>
    ensures { IfOk result (λ f. (s : Stored) → AreNamed s left → AreNamed s right → AreNamed s f) }
{
    let left = Boxed::new(alloc, left)?;
    Ok(Formula::Iff(left, Boxed::new(alloc, right)?))
}

/// That one formula implies another.
fn implies(alloc: Global, left: Formula, right: Formula) -> Result<Formula, AllocError>
    ensures { IfOk result (λ f. (s : Stored) → AreNamed s left → AreNamed s right → AreNamed s f) }
{
    let premise = not(alloc, left)?;
    or(alloc, premise, right)
}

/// The first of two atoms, `p`.
fn p(alloc: Global, store: &Store) -> Result<Formula, AllocError>
    ensures { IfOk result (AreNamed store.now) }
{
    equation(alloc, store, 0, 1)
}

/// The second, `q`.
fn q(alloc: Global, store: &Store) -> Result<Formula, AllocError>
    ensures { IfOk result (AreNamed store.now) }
{
    equation(alloc, store, 2, 3)
}

/// `not p`.
fn not_p(alloc: Global, store: &Store) -> Result<Formula, AllocError>
    ensures { IfOk result (AreNamed store.now) }
{
    let part = p(alloc, store)?;
    not(alloc, part)
}

/// `not q`.
fn not_q(alloc: Global, store: &Store) -> Result<Formula, AllocError>
    ensures { IfOk result (AreNamed store.now) }
{
    let part = q(alloc, store)?;
    not(alloc, part)
}

/// `p -> q`.
fn implication(alloc: Global, store: &Store) -> Result<Formula, AllocError>
    ensures { IfOk result (AreNamed store.now) }
{
    let left = p(alloc, store)?;
    let right = q(alloc, store)?;
    implies(alloc, left, right)
}

/// `not q -> not p`.
fn turned(alloc: Global, store: &Store) -> Result<Formula, AllocError>
    ensures { IfOk result (AreNamed store.now) }
{
    let left = not_q(alloc, store)?;
    let right = not_p(alloc, store)?;
    implies(alloc, left, right)
}

/// `(p -> q) -> not q -> not p`.
fn contraposition(alloc: Global, store: &Store) -> Result<Formula, AllocError>
    ensures { IfOk result (AreNamed store.now) }
{
    let left = implication(alloc, store)?;
    let right = turned(alloc, store)?;
    implies(alloc, left, right)
}

/// `p or q`.
fn either(alloc: Global, store: &Store) -> Result<Formula, AllocError>
    ensures { IfOk result (AreNamed store.now) }
{
    let left = p(alloc, store)?;
    let right = q(alloc, store)?;
    or(alloc, left, right)
}

/// `p or q -> p`.
fn one_of_two(alloc: Global, store: &Store) -> Result<Formula, AllocError>
    ensures { IfOk result (AreNamed store.now) }
{
    let left = either(alloc, store)?;
    let right = p(alloc, store)?;
    implies(alloc, left, right)
}

/// `p xor q`.
fn apart(alloc: Global, store: &Store) -> Result<Formula, AllocError>
    ensures { IfOk result (AreNamed store.now) }
{
    let left = p(alloc, store)?;
    let right = q(alloc, store)?;
    xor(alloc, left, right)
}

/// `p <-> q`.
fn same(alloc: Global, store: &Store) -> Result<Formula, AllocError>
    ensures { IfOk result (AreNamed store.now) }
{
    let left = p(alloc, store)?;
    let right = q(alloc, store)?;
    iff(alloc, left, right)
}

/// `not (p <-> q)`.
fn differ(alloc: Global, store: &Store) -> Result<Formula, AllocError>
    ensures { IfOk result (AreNamed store.now) }
{
    let part = same(alloc, store)?;
    not(alloc, part)
}

/// `(p xor q) <-> not (p <-> q)`.
fn exclusion(alloc: Global, store: &Store) -> Result<Formula, AllocError>
    ensures { IfOk result (AreNamed store.now) }
{
    let left = apart(alloc, store)?;
    let right = differ(alloc, store)?;
    iff(alloc, left, right)
}

fn formula_of(alloc: Global, store: &Store, goal: Goal) -> Result<Formula, AllocError>
    ensures { IfOk result (AreNamed store.now) }
{
    match goal {
        Goal::Contraposition => contraposition(alloc, store),
        Goal::OneOfTwo => one_of_two(alloc, store),
        Goal::Exclusion => exclusion(alloc, store),
    }
}

/// Puts a literal behind those of a clause.
fn push_lit(clause: &mut Clause, positive: bool, formula: Formula) -> Result<(), AllocError>
    ensures { OnOk result ((s : Stored) → IsNamed s clause.old → AreNamed s formula → IsNamed s clause.new) }
{
    clause.push(Lit { positive, formula })?;
    Ok(())
}

/// The clause of one literal.
fn unit(alloc: Global, positive: bool, formula: Formula) -> Result<Clause, AllocError>
    ensures { IfOk result (λ c. (s : Stored) → AreNamed s formula → IsNamed s c) }
{
    let mut clause = List::new(alloc);
    push_lit(&mut clause, positive, formula)?;
    Ok(clause)
}

/// Puts a clause behind others.
fn push_clause(clauses: &mut List<Clause>, clause: Clause) -> Result<(), AllocError>
    ensures { OnOk result ((s : Stored) → AllNamed s clauses.old → IsNamed s clause → AllNamed s clauses.new) }
{
    clauses.push(clause)?;
    Ok(())
}

/// What stands against a goal.
fn against(alloc: Global, goal: Formula) -> Result<List<Clause>, AllocError>
    ensures { IfOk result (λ cs. (s : Stored) → AreNamed s goal → AllNamed s cs) }
{
    let clause = unit(alloc, false, goal)?;
    let mut clauses = List::new(alloc);
    push_clause(&mut clauses, clause)?;
    Ok(clauses)
}

/// A pigeon is in one of the three holes 4, 5 and 6.
fn in_a_hole(alloc: Global, store: &Store, pigeon: usize) -> Result<Clause, AllocError>
    ensures { IfOk result (IsNamed store.now) }
{
    let mut clause = unit(alloc, true, equation(alloc, store, pigeon, 4)?)?;
    push_lit(&mut clause, true, equation(alloc, store, pigeon, 5)?)?;
    push_lit(&mut clause, true, equation(alloc, store, pigeon, 6)?)?;
    Ok(clause)
}

/// Two pigeons are in different holes.
fn in_two_holes(
    alloc: Global,
    store: &Store,
    one: usize,
    other: usize,
) -> Result<Clause, AllocError>
    ensures { IfOk result (IsNamed store.now) }
{
    unit(alloc, false, equation(alloc, store, one, other)?)
}

/// So many pigeons are in three holes, no two of them in one.
fn pigeonholes(alloc: Global, store: &Store, pigeons: usize) -> Result<List<Clause>, AllocError>
    ensures { IfOk result (AllNamed store.now) }
{
    let mut clauses = List::new(alloc);
    for pigeon in 0..pigeons {
        push_clause(&mut clauses, in_a_hole(alloc, store, pigeon)?)?;
        for other in 0..pigeon {
            push_clause(&mut clauses, in_two_holes(alloc, store, other, pigeon)?)?;
        }
    }
    Ok(clauses)
}

/// A solver with these clauses.
fn solver_of<T: Theory + Drop>(
    alloc: Global,
    store: &Store,
    theory: T,
    clauses: &[Clause],
) -> Result<Solver<T>, AllocError>
where
    T::Mark: Drop,
    requires nothing { T.assumed theory ≡ [] }
    requires fits { T.fits theory store.now }
    requires step { T.in_step theory [] }
    requires named { AllNamed store.now clauses.now }
    ensures alive { IfOk result (λ s. IsAlive T.fits T.assumed T.fits_mark T.in_step store.now s.theory s.marks.items s.propagation.trail s.propagation.clauses s.handed s.expanded []) }
{
    let mut solver = Solver::new(alloc, theory);
    for clause in clauses {
        let copy = copy_clause(alloc, clause.as_slice())?;
        solver.add(copy, 0)?;
    }
    Ok(solver)
}

/// Searches over clauses.
fn search<T: Theory + Drop>(
    alloc: Global,
    store: &Store,
    theory: T,
    clauses: &[Clause],
    limit: usize,
    pick: &Pick,
) -> Result<Answer, AllocError>
where
    T::Mark: Drop,
    requires nothing { T.assumed theory ≡ [] }
    requires fits { T.fits theory store.now }
    requires step { T.in_step theory [] }
    requires named { AllNamed store.now clauses.now }
{
    let mut solver = solver_of(alloc, store, theory, clauses)?;
    let mut journal = Journal::new(alloc, limit)?;
    let mut lines: Vec<ClauseLine> = Vec::new(alloc);
    match solver.run(store, &mut journal, pick, &mut lines) {
        Ok(SatEnd::Refuted) => Ok(Answer::Refuted),
        Ok(SatEnd::Open) => Ok(Answer::Open),
        Err(Fail::Steps) => Ok(Answer::Steps(journal.counted())),
        Err(Fail::Number(_wide)) => Ok(Answer::Number),
        Err(Fail::Memory(failed)) => Err(failed),
    }
}

/// Searches over clauses with a choice, from the theory that has assumed nothing.
fn search_by(
    alloc: Global,
    store: &Store,
    clauses: &[Clause],
    limit: usize,
    pick: &Pick,
) -> Result<Answer, AllocError>
    requires named { AllNamed store.now clauses.now }
{
    search(alloc, store, Constants::new(alloc), clauses, limit, pick)
}

fn answer_by(
    alloc: Global,
    store: &Store,
    clauses: &[Clause],
    limit: usize,
    which: Which,
) -> Result<Answer, AllocError>
    requires named { AllNamed store.now clauses.now }
{
    match which {
        Which::First => {
            let pick = Pick::keep(Box::new(alloc, |_n: usize, _turn: usize| 0)?);
            search_by(alloc, store, clauses, limit, &pick)
        }
        Which::Last => {
            let last = |n: usize, _turn: usize|
                requires { 1 ≤ n }
                ensures { result < n }
            { n - 1 };
            let pick = Pick::keep(Box::new(alloc, last)?);
            search_by(alloc, store, clauses, limit, &pick)
        }
        Which::Mixed => {
            let mixed = |n: usize, turn: usize|
                requires { 1 ≤ n }
                ensures { result < n }
            { turn % n };
            let pick = Pick::keep(Box::new(alloc, mixed)?);
            search_by(alloc, store, clauses, limit, &pick)
        }
    }
}

fn answer_for_goal(
    alloc: Global,
    store: &Store,
    goal: Goal,
    which: Which,
) -> Result<Answer, AllocError> {
    let clauses = against(alloc, formula_of(alloc, store, goal)?)?;
    answer_by(alloc, store, clauses.as_slice(), 100, which)
}

fn answer_for_pigeons(
    alloc: Global,
    store: &Store,
    pigeons: usize,
    limit: usize,
    which: Which,
) -> Result<Answer, AllocError> {
    let clauses = pigeonholes(alloc, store, pigeons)?;
    answer_by(alloc, store, clauses.as_slice(), limit, which)
}

#[test]
fn propositional_goals(rt: HostRuntime) -> Result<(), TestFail> {
    let alloc = rt.alloc();
    let store = store_of(alloc, 4)?;
    for which in WAYS {
        let told = answer_for_goal(alloc, &store, Goal::Contraposition, which)?;
        assert_eq!(rt; told, Answer::Refuted);
        let told = answer_for_goal(alloc, &store, Goal::OneOfTwo, which)?;
        assert_eq!(rt; told, Answer::Open);
        let told = answer_for_goal(alloc, &store, Goal::Exclusion, which)?;
        assert_eq!(rt; told, Answer::Refuted);
    }
    Ok(())
}

#[test]
fn pigeons_in_three_holes(rt: HostRuntime) -> Result<(), TestFail> {
    let alloc = rt.alloc();
    let store = store_of(alloc, 7)?;
    for which in WAYS {
        let told = answer_for_pigeons(alloc, &store, 4, 1000, which)?;
        assert_eq!(rt; told, Answer::Refuted);
        let told = answer_for_pigeons(alloc, &store, 3, 1000, which)?;
        assert_eq!(rt; told, Answer::Open);
    }
    Ok(())
}

/// After one or two decisions no literal follows and nothing is learnt, so that one more counted line is owed.
#[test]
fn a_journal_that_is_full(rt: HostRuntime) -> Result<(), TestFail> {
    let alloc = rt.alloc();
    let store = store_of(alloc, 7)?;
    for which in WAYS {
        for limit in 0..3 {
            let told = answer_for_pigeons(alloc, &store, 4, limit, which)?;
            assert_eq!(rt; told, Answer::Steps(limit));
        }
    }
    Ok(())
}
