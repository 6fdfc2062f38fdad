//! Unit propagation along hinted clauses.
ghost use Rattle.std.specs.Prelude.{◌≡◌, IfOk};
ghost use Rattle.std.specs.List.{list_all};
ghost use Rattle.ae_rules.specs.Clauses as spec;
ghost use Rattle.ae_base.specs.Decided.{decided};
ghost use Rattle.ae_core.specs.Decided.{Lit_discrete};

use ae_core::copies::copy_clause;
use ae_core::equality::{same_formula, same_lit};
use ae_core::formulas::{Clause, Lit};
use ae_rules::literals::opposite;
use std::alloc::{AllocError, Global};

/// Whether two literals are the same, as the definitions say it.
pub fn is_lit(left: &Lit, right: &Lit) -> bool
    ensures { result ≡ decided (Lit_discrete left.now right.now) }
{
    same_lit(left, right)
}

/// Whether a literal is the opposite of another one.
pub fn is_opposite(left: &Lit, right: &Lit) -> bool
    ensures { result ≡ decided (Lit_discrete left.now (spec.opposite right.now)) }
{
    left.positive == !right.positive && same_formula(&left.formula, &right.formula)
}

/// Whether a literal is among those that are false.
pub fn stands(falsified: &[Lit], lit: &Lit) -> bool
    ensures { result ≡ spec.stands falsified.now lit.now }
{
    for found in falsified {
        if is_lit(found, lit) {
            return true;
        }
    }
    false
}

/// Whether a literal's opposite is among those that are false.
pub fn opposite_stands(falsified: &[Lit], lit: &Lit) -> bool
    ensures { result ≡ spec.stands falsified.now (spec.opposite lit.now) }
{
    for found in falsified {
        if is_opposite(found, lit) {
            return true;
        }
    }
    false
}

/// Whether a clause has a true literal.
pub fn has_true(falsified: &[Lit], clause: &[Lit]) -> bool
    ensures { result ≡ spec.has_true falsified.now clause.now }
{
    for lit in clause {
        if opposite_stands(falsified, lit) {
            return true;
        }
    }
    false
}

/// Whether each literal of a clause is false.
pub fn all_stand(falsified: &[Lit], clause: &[Lit]) -> bool
    ensures { result ≡ list_all (spec.stands falsified.now) clause.now }
{
    for lit in clause {
        if !stands(falsified, lit) {
            return false;
        }
    }
    true
}

/// Whether each literal is false or the given one.
pub fn all_settled(falsified: &[Lit], single: &Lit, clause: &[Lit]) -> bool
    ensures { result ≡ list_all (spec.is_or_stands falsified.now single.now) clause.now }
{
    for lit in clause {
        if !(is_lit(single, lit) || stands(falsified, lit)) {
            return false;
        }
    }
    true
}

/// What becomes false with a clause: the opposite of its one literal that isn't false. There is none where a clause has no such literal, or several.
#[tactic(auto, using(crate::proofs::Propagating::next_skip, crate::proofs::Propagating::next_open, crate::proofs::Propagating::next_two, crate::proofs::Propagating::next_end))]
pub fn next_false(
    alloc: Global,
    falsified: &[Lit],
    clause: &[Lit],
) -> Result<Option<Lit>, AllocError>
    ensures { IfOk result (λ l. l ≡ spec.next_false falsified.now clause.now) }
{
    for i in 0..clause.len() {
        let single = &clause[i];
        if !stands(falsified, single) {
            if !all_settled(falsified, single, &clause[i + 1..]) {
                return Ok(None);
            }
            return Ok(Some(opposite(alloc, single)?));
        }
    }
    Ok(None)
}

/// Whether the hinted clauses, taken in order with the literals of the first clause false, lead to one that is false.
#[tactic(auto, using(crate::proofs::Propagating::refutes_true, crate::proofs::Propagating::refutes_next, crate::proofs::Propagating::refutes_none, crate::proofs::Propagating::refutes_last))]
pub fn refutes(alloc: Global, clause: &[Lit], hinted: &[Clause]) -> Result<bool, AllocError>
    ensures { IfOk result (λ b. b ≡ spec.refutes clause.now hinted.now) }
{
    let count = hinted.len();
    if count == 0 {
        return Ok(false);
    }
    let mut falsified = copy_clause(alloc, clause)?;
    for i in 0..count - 1 {
        if !has_true(falsified.as_slice(), hinted[i].as_slice()) {
            match next_false(alloc, falsified.as_slice(), hinted[i].as_slice())? {
                None => return Ok(false),
                Some(lit) => falsified.push(lit)?,
            }
        }
    }
    Ok(all_stand(falsified.as_slice(), hinted[count - 1].as_slice()))
}
