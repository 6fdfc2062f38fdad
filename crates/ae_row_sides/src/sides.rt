//! The sides of a row as terms.
ghost use Rattle.std.specs.Prelude.{pos, ◌≡◌, ◌<◌, [], ◌∷◌, None, length, map, IfOk};
ghost use Rattle.std.specs.List.{AllByRecursion};
ghost use Rattle.ae_base.specs.Options.{or_else};
ghost use Rattle.ae_core.specs.declared.terms.Sort.{Int};
ghost use Rattle.ae_core.specs.declared.terms.Term.{Apply};
ghost use Rattle.ae_journal.specs.Sides as spec;
ghost use Rattle.ae_journal.specs.Systems.{arithmetic, numeral_of};
ghost use Rattle.ae_num.specs.Forms.{IsNormal};
ghost use Rattle.ae_num.specs.Limits.{FitsLimits};
ghost use Rattle.ae_store.specs.Shapes.{shapes};
ghost use Rattle.ae_store.specs.Terms.{terms, named};
ghost use Rattle.ae_row_sides.specs.Names.{AreNames};
ghost use Rattle.ae_row_sides.specs.Inner.Sums.{after, summed, opposite_part};

use ae_core::lists::List;
use ae_core::terms::{Head, Op, Term};
use ae_num::forms::{Lin, Part};
use ae_store::store::Store;
use sqlite_items::Items;
use std::alloc::{AllocError, Global};

/// A whole number.
fn numeral(number: i128) -> Term
    ensures { result ≡ numeral_of Int number }
{
    Term::Num {
        top: number,
        bottom: 1,
        real: false,
    }
}

/// An operation on two integers.
fn joined(alloc: Global, op: Op, left: Term, right: Term) -> Result<Term, AllocError>
    ensures { IfOk result (λ t. t ≡ Apply (arithmetic Int op) [] (left ∷ right ∷ [])) }
{
    let mut args = List::new(alloc);
    args.push(left)?;
    args.push(right)?;
    Ok(Term::Apply {
        head: Head::Int(op),
        sorts: List::new(alloc),
        args,
    })
}

/// A term times a factor, which is left out where it is 1.
fn times(alloc: Global, factor: i128, term: Term) -> Result<Term, AllocError>
    ensures { IfOk result (λ t. t ≡ spec.times_term Int factor term) }
{
    if factor == 1 {
        return Ok(term);
    }
    joined(alloc, Op::Mul, numeral(factor), term)
}

/// A term behind a sum.
fn added(alloc: Global, sum: Option<Term>, term: Term) -> Result<Term, AllocError>
    ensures { IfOk result (λ t. t ≡ after sum term) }
{
    match sum {
        None => Ok(term),
        Some(left) => joined(alloc, Op::Add, left, term),
    }
}

/// The term of a name.
fn name_term(store: &Store, name: usize) -> Result<Term, AllocError>
    requires { name < length store.now.nodes }
    ensures { IfOk result (λ t. t ≡ named (terms (shapes store.now.nodes)) name) }
{
    store.term(name)
}

/// A sum with a part behind it, where its factor isn't negative.
fn with_part(
    alloc: Global,
    store: &Store,
    sum: Option<Term>,
    part: Part,
) -> Result<Option<Term>, AllocError>
    requires { part.key < length store.now.nodes }
    ensures { IfOk result (λ s. s ≡ summed sum (spec.summands Int (terms (shapes store.now.nodes)) (part ∷ []))) }
{
    if part.factor < 0 {
        return Ok(sum);
    }
    let name = name_term(store, part.key)?;
    let term = times(alloc, part.factor, name)?;
    let more = added(alloc, sum, term)?;
    Ok(Some(more))
}

/// A sum with a constant behind it, where it is positive.
fn with_constant(
    alloc: Global,
    sum: Option<Term>,
    constant: i128,
) -> Result<Option<Term>, AllocError>
    ensures { IfOk result (λ s. s ≡ summed sum (spec.last_summand Int constant)) }
{
    if constant <= 0 {
        return Ok(sum);
    }
    let more = added(alloc, sum, numeral(constant))?;
    Ok(Some(more))
}

/// The term of a sum: an empty one is 0.
fn or_zero(sum: Option<Term>) -> Term
    ensures { result ≡ or_else sum (numeral_of Int (pos 0)) }
{
    match sum {
        Some(term) => term,
        None => numeral(0),
    }
}

/// The sum of the parts whose factors aren't negative.
fn parts_sum(alloc: Global, store: &Store, parts: &[Part]) -> Result<Option<Term>, AllocError>
    requires { AreNames (length store.now.nodes) parts.now }
    ensures { IfOk result (λ s. s ≡ summed None (spec.summands Int (terms (shapes store.now.nodes)) parts.now)) }
{
    let mut sum = None;
    for part in parts {
        sum = with_part(alloc, store, sum, *part)?;
    }
    Ok(sum)
}

/// The sum of a row's positive summands, without its denominator.
pub fn side(alloc: Global, store: &Store, row: &Lin) -> Result<Term, AllocError>
    requires { AreNames (length store.now.nodes) row.now.parts }
    ensures { IfOk result (λ t. t ≡ spec.side Int (terms (shapes store.now.nodes)) row.now) }
{
    let sum = parts_sum(alloc, store, row.parts.as_slice())?;
    let whole = with_constant(alloc, sum, row.constant)?;
    Ok(or_zero(whole))
}

/// The opposite of a part.
fn opposite_part(part: Part) -> Part
    requires { FitsLimits part.factor }
    ensures { result ≡ opposite_part part }
{
    Part {
        key: part.key,
        factor: -part.factor,
    }
}

/// The opposites of parts.
fn opposite_parts(alloc: Global, parts: &[Part]) -> Result<Items<Part>, AllocError>
    requires { AllByRecursion (λ q. FitsLimits q.factor) parts.now }
    ensures { IfOk result (λ qs. qs ≡ map opposite_part parts.now) }
{
    let mut all = Items::new(alloc);
    for part in parts {
        all.push(opposite_part(*part))?;
    }
    Ok(all)
}

/// The opposite of a row.
fn opposite(alloc: Global, row: &Lin) -> Result<Lin, AllocError>
    requires { IsNormal row.now }
    ensures { IfOk result (λ f. f ≡ spec.opposite_row row.now) }
{
    let parts = opposite_parts(alloc, row.parts.as_slice())?;
    Ok(Lin {
        den: row.den,
        parts,
        constant: -row.constant,
    })
}

/// The sum of the positive summands of a row's opposite, without its denominator.
pub fn other_side(alloc: Global, store: &Store, row: &Lin) -> Result<Term, AllocError>
    requires normal { IsNormal row.now }
    requires names { AreNames (length store.now.nodes) row.now.parts }
    ensures { IfOk result (λ t. t ≡ spec.other_side Int (terms (shapes store.now.nodes)) row.now) }
{
    let other = opposite(alloc, row)?;
    side(alloc, store, &other)
}
