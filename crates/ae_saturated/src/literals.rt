//! The literals of a state, one by one: opposites, names, rows, equations and predicates.
ghost use Rattle.std.specs.Prelude.{◌≡◌, IfOk};
ghost use Rattle.std.specs.List.{list_all, list_any};
ghost use Rattle.ae_base.specs.Decided.{decided};
ghost use Rattle.ae_core.specs.Decided.{Lit_discrete};
ghost use Rattle.ae_core.specs.declared.formulas.Formula.{out-Formula};
ghost use Rattle.ae_core.specs.declared.terms.Head.TheVariants as head;
ghost use Rattle.ae_core.specs.declared.terms.Term.{Apply};
ghost use Rattle.ae_rules.specs.Clauses as clauses;
ghost use Rattle.ae_decide.specs.Names as names_spec;
ghost use Rattle.ae_saturated.specs.Literals as spec;

use ae_core::copies::{copy_sorts, copy_terms};
use ae_core::equality::same_lit;
use ae_core::formulas::{Formula, Lit};
use ae_core::problems::Signature;
use ae_core::sorts::{are_sorts, same_known, sort_of};
use ae_core::terms::{Head, Sort, Term};
use ae_decide::names::is_term;
use ae_decide::values::are_alike;
use ae_journal::systems::System;
use ae_rules::literals::opposite;
use ae_rules::rows::row;
use std::alloc::{AllocError, Global};

/// The number of rows, counted with row 0, which there is not.
const ROWS: usize = 17;

/// Whether two literals are the same, as the definitions say it.
fn is_lit(left: &Lit, right: &Lit) -> bool
    ensures { result ≡ decided (Lit_discrete left.now right.now) }
{
    same_lit(left, right)
}

/// Whether a literal is one of these.
pub fn stands(literals: &[Lit], wanted: &Lit) -> bool
    ensures { result ≡ clauses.stands literals.now wanted.now }
{
    for literal in literals {
        if is_lit(literal, wanted) {
            return true;
        }
    }
    false
}

/// Whether a literal isn't quantified.
fn is_closed(literal: &Lit) -> bool
    ensures { result ≡ spec.is_closed literal.now }
{
    match &literal.formula {
        Formula::All(_) => false,
        Formula::Ex(_) => false,
        _ => true,
    }
}

/// Whether none of some literals is.
pub fn are_closed(literals: &[Lit]) -> bool
    ensures { result ≡ list_all spec.is_closed literals.now }
{
    for literal in literals {
        if !is_closed(literal) {
            return false;
        }
    }
    true
}

/// Whether the opposite of a literal doesn't stand.
fn is_consistent(alloc: Global, literals: &[Lit], literal: &Lit) -> Result<bool, AllocError>
    ensures { IfOk result (λ b. b ≡ spec.is_consistent literals.now literal.now) }
{
    let other = opposite(alloc, literal)?;
    Ok(!stands(literals, &other))
}

/// Whether a term is a name.
fn is_name(names: &[Term], term: &Term) -> bool
    ensures { result ≡ names_spec.stands_in names.now term.now }
{
    for name in names {
        if is_term(name, term) {
            return true;
        }
    }
    false
}

/// Whether a predicate's application is a name.
fn is_application(
    alloc: Global,
    names: &[Term],
    symbol: usize,
    sorts: &[Sort],
    args: &[Term],
) -> Result<bool, AllocError>
    ensures { IfOk result (λ b. b ≡ names_spec.stands_in names.now (Apply (head.Symbol symbol) sorts.now args.now)) }
{
    let term = Term::Apply {
        head: Head::Symbol(symbol),
        sorts: copy_sorts(alloc, sorts)?,
        args: copy_terms(alloc, args)?,
    };
    Ok(is_name(names, &term))
}

/// Whether what stands in a formula outside quantified parts is a name.
#[tactic(auto, using(crate::proofs::Outside::named_rules))]
pub fn are_named(alloc: Global, names: &[Term], formula: &Formula) -> Result<bool, AllocError>
    ensures { IfOk result (λ b. b ≡ spec.are_named names.now formula.now) }
{
    match formula {
        Formula::True => Ok(true),
        Formula::False => Ok(true),
        Formula::Eq { left, right } => Ok(is_name(names, left) && is_name(names, right)),
        Formula::Lt { left, right } => Ok(is_name(names, left) && is_name(names, right)),
        Formula::Le { left, right } => Ok(is_name(names, left) && is_name(names, right)),
        Formula::Pred {
            symbol,
            sorts,
            args,
        } => is_application(alloc, names, *symbol, sorts.as_slice(), args.as_slice()),
        Formula::Not(part) => are_named(alloc, names, part.get()),
        Formula::And(left, right) => {
            Ok(are_named(alloc, names, left.get())? && are_named(alloc, names, right.get())?)
        }
        Formula::Or(left, right) => {
            Ok(are_named(alloc, names, left.get())? && are_named(alloc, names, right.get())?)
        }
        Formula::Xor(left, right) => {
            Ok(are_named(alloc, names, left.get())? && are_named(alloc, names, right.get())?)
        }
        Formula::Iff(left, right) => {
            Ok(are_named(alloc, names, left.get())? && are_named(alloc, names, right.get())?)
        }
        Formula::All(_) => Ok(true),
        Formula::Ex(_) => Ok(true),
    }
}

/// Whether one of some literals stands.
fn some_stand(literals: &[Lit], clause: &[Lit]) -> bool
    ensures { result ≡ list_any (clauses.stands literals.now) clause.now }
{
    for literal in clause {
        if stands(literals, literal) {
            return true;
        }
    }
    false
}

/// Whether one of the literals of a row of a formula stands, if there is the row.
fn row_stands(
    alloc: Global,
    literals: &[Lit],
    formula: &Formula,
    number: usize,
) -> Result<bool, AllocError>
    ensures { IfOk result (λ b. b ≡ spec.some_stands literals.now (clauses.row number formula.now)) }
{
    match row(alloc, number, formula)? {
        None => Ok(true),
        Some(clause) => Ok(some_stand(literals, clause.as_slice())),
    }
}

/// Whether one of the literals of each row below a number does.
#[tactic(auto, using(crate::proofs::LiteralTests::no_rows, crate::proofs::LiteralTests::one_row))]
fn rows_stand(
    alloc: Global,
    literals: &[Lit],
    formula: &Formula,
    count: usize,
) -> Result<bool, AllocError>
    ensures { IfOk result (λ b. b ≡ spec.rows_stand literals.now formula.now count) }
{
    for number in 0..count {
        if !row_stands(alloc, literals, formula, number)? {
            return Ok(false);
        }
    }
    Ok(true)
}

/// Whether an equation is of terms of one value, and a disequation of others.
fn equation_holds(system: &System, literal: &Lit) -> bool
    ensures { result ≡ spec.equation_holds system.now literal.now }
{
    match &literal.formula {
        Formula::Eq { left, right } => {
            if literal.positive {
                are_alike(system, left, right)
            } else {
                !are_alike(system, left, right)
            }
        }
        _ => true,
    }
}

/// Whether two terms are equal, or of one sort and one value.
fn are_same(
    alloc: Global,
    signature: &Signature,
    system: &System,
    left: &Term,
    right: &Term,
) -> Result<bool, AllocError>
    ensures { IfOk result (λ b. b ≡ spec.are_same signature.now system.now left.now right.now) }
{
    if is_term(left, right) {
        return Ok(true);
    }
    let first = sort_of(alloc, signature, left)?;
    let second = sort_of(alloc, signature, right)?;
    Ok(same_known(&first, &second) && are_alike(system, left, right))
}

/// Whether each two terms at one place are.
#[tactic(auto, using(crate::proofs::LiteralTests::same_step, crate::proofs::LiteralTests::same_lengths))]
fn all_same(
    alloc: Global,
    signature: &Signature,
    system: &System,
    left: &[Term],
    right: &[Term],
) -> Result<bool, AllocError>
    ensures { IfOk result (λ b. b ≡ spec.all_same signature.now system.now left.now right.now) }
{
    if left.len() != right.len() {
        return Ok(false);
    }
    for i in 0..left.len() {
        if !are_same(alloc, signature, system, &left[i], &right[i])? {
            return Ok(false);
        }
    }
    Ok(true)
}

/// Whether a literal says that a predicate doesn't hold of the same arguments.
fn denies(
    alloc: Global,
    signature: &Signature,
    system: &System,
    predicate: usize,
    at: &[Sort],
    of: &[Term],
    literal: &Lit,
) -> Result<bool, AllocError>
    ensures { IfOk result (λ b. b ≡ spec.denies signature.now system.now predicate at.now of.now literal.now) }
{
    if literal.positive {
        return Ok(false);
    }
    match &literal.formula {
        Formula::Pred {
            symbol,
            sorts,
            args,
        } => {
            if predicate != *symbol || !are_sorts(at, sorts.as_slice()) {
                return Ok(false);
            }
            all_same(alloc, signature, system, of, args.as_slice())
        }
        _ => Ok(false),
    }
}

/// Whether some literal does.
fn some_denies(
    alloc: Global,
    signature: &Signature,
    system: &System,
    predicate: usize,
    at: &[Sort],
    of: &[Term],
    literals: &[Lit],
) -> Result<bool, AllocError>
    ensures { IfOk result (λ b. b ≡ list_any (spec.denies signature.now system.now predicate at.now of.now) literals.now) }
{
    for literal in literals {
        if denies(alloc, signature, system, predicate, at, of, literal)? {
            return Ok(true);
        }
    }
    Ok(false)
}

/// Whether no literal says the opposite of a literal that says that a predicate holds.
fn predicate_holds(
    alloc: Global,
    signature: &Signature,
    system: &System,
    literals: &[Lit],
    literal: &Lit,
) -> Result<bool, AllocError>
    ensures { IfOk result (λ b. b ≡ spec.predicate_holds signature.now system.now literals.now literal.now) }
{
    if !literal.positive {
        return Ok(true);
    }
    match &literal.formula {
        Formula::Pred {
            symbol,
            sorts,
            args,
        } => {
            let denied = some_denies(
                alloc,
                signature,
                system,
                *symbol,
                sorts.as_slice(),
                args.as_slice(),
                literals,
            )?;
            Ok(!denied)
        }
        _ => Ok(true),
    }
}

/// Whether a literal fits the others and the system.
fn literal_fits(
    alloc: Global,
    signature: &Signature,
    system: &System,
    literals: &[Lit],
    literal: &Lit,
) -> Result<bool, AllocError>
    ensures { IfOk result (λ b. b ≡ spec.literal_fits signature.now system.now literals.now literal.now) }
{
    if !is_consistent(alloc, literals, literal)? {
        return Ok(false);
    }
    if !are_named(alloc, system.names.as_slice(), &literal.formula)? {
        return Ok(false);
    }
    if !rows_stand(alloc, literals, &literal.formula, ROWS)? {
        return Ok(false);
    }
    if !equation_holds(system, literal) {
        return Ok(false);
    }
    predicate_holds(alloc, signature, system, literals, literal)
}

/// Whether each literal does.
pub fn literals_fit(
    alloc: Global,
    signature: &Signature,
    system: &System,
    literals: &[Lit],
) -> Result<bool, AllocError>
    ensures { IfOk result (λ b. b ≡ spec.literals_fit signature.now system.now literals.now) }
{
    for literal in literals {
        if !literal_fits(alloc, signature, system, literals, literal)? {
            return Ok(false);
        }
    }
    Ok(true)
}
