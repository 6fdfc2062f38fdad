//! Applications of an associative and commutative symbol: the same multiset, flattened.
ghost use Rattle.std.specs.Prelude.{◌≡◌, ◌↔◌, ◌++◌, IfOk, OnOk, IsTrue, map};
ghost use Rattle.std.specs.List.Sorted.{IsPermutation};
ghost use Rattle.ae_rules.specs.Lines.{AllowedAc, IsAc, flat};
ghost use Rattle.ae_calc.specs.Inner.LentTerms.{values, IsRisingList};

use ae_core::equality::{same_head, same_sorts, same_term};
use ae_core::orders::compare_terms;
use ae_core::problems::{Nature, Signature};
use ae_core::terms::{Head, Op, Sort, Term};
use std::alloc::{AllocError, Global};

/// Whether a head is associative and commutative: a declared symbol of that nature, or the product of a numeric sort.
pub fn is_ac(signature: &Signature, head: Head) -> bool
    ensures { IsTrue result ↔ IsAc signature.now head }
{
    match head {
        Head::Symbol(number) => match signature.symbols.as_slice().get(number) {
            None => false,
            Some(entry) => match entry.nature {
                Nature::Ac => true,
                _ => false,
            },
        },
        Head::Int(op) => op == Op::Mul,
        Head::Real(op) => op == Op::Mul,
        _ => false,
    }
}

/// Adds the arguments of a term flattened under a symbol to those found before, from left to right.
pub fn flatten<'a>(
    term: &'a Term,
    head: Head,
    sorts: &[Sort],
    found: &mut Vec<&'a Term>,
) -> Result<(), AllocError>
    ensures { OnOk result (values found.new.items ≡ values found.old.items ++ flat head sorts.now term.now) }
{
    match term {
        Term::Apply {
            head: own,
            sorts: own_sorts,
            args,
        } => {
            let parts = args.as_slice();
            if parts.len() == 2
                && same_head(head, *own)
                && same_sorts(sorts, own_sorts.as_slice())
            {
                flatten(&parts[0], head, sorts, found)?;
                flatten(&parts[1], head, sorts, found)
            } else {
                found.push(term)?;
                Ok(())
            }
        }
        _ => {
            found.push(term)?;
            Ok(())
        }
    }
}

/// The arguments of a term flattened under a symbol, in the order of terms.
pub fn sorted_arguments<'a>(
    alloc: Global,
    head: Head,
    sorts: &[Sort],
    term: &'a Term,
) -> Result<Vec<&'a Term>, AllocError>
    ensures permutation { IfOk result (λ found. IsPermutation (flat head sorts.now term.now) (values found.items)) }
    ensures rising { IfOk result (λ found. IsRisingList (values found.items)) }
{
    let mut found = Vec::new(alloc);
    flatten(term, head, sorts, &mut found)?;
    found.sort_unstable_by(|left, right| compare_terms(left, right));
    Ok(found)
}

/// Whether two lists of lent terms are the same.
pub fn same_lent(left: &[&Term], right: &[&Term]) -> bool
    ensures { IsTrue result ↔ (values left.now ≡ values right.now) }
{
    if left.len() != right.len() {
        return false;
    }
    for i in 0..left.len() {
        if !same_term(left[i], right[i]) {
            return false;
        }
    }
    true
}

/// Whether two terms, flattened under a symbol, are the same multiset.
pub fn same_arguments(
    alloc: Global,
    head: Head,
    sorts: &[Sort],
    left: &Term,
    right: &Term,
) -> Result<bool, AllocError>
    ensures { IfOk result (λ b. IsTrue b ↔ IsPermutation (flat head sorts.now left.now) (flat head sorts.now right.now)) }
{
    let from = sorted_arguments(alloc, head, sorts, left)?;
    let to = sorted_arguments(alloc, head, sorts, right)?;
    Ok(same_lent(from.as_slice(), to.as_slice()))
}

/// Whether two terms are applications of one associative and commutative symbol, and the same multiset flattened under it.
pub fn ac_allowed(
    alloc: Global,
    signature: &Signature,
    left: &Term,
    right: &Term,
) -> Result<bool, AllocError>
    ensures { IfOk result (λ b. IsTrue b ↔ AllowedAc signature.now left.now right.now) }
{
    match (left, right) {
        (
            Term::Apply {
                head: from,
                sorts: from_sorts,
                ..
            },
            Term::Apply {
                head: to,
                sorts: to_sorts,
                ..
            },
        ) => {
            let sorts = from_sorts.as_slice();
            if is_ac(signature, *from)
                && same_head(*from, *to)
                && same_sorts(sorts, to_sorts.as_slice())
            {
                same_arguments(alloc, *from, sorts, left, right)
            } else {
                Ok(false)
            }
        }
        _ => Ok(false),
    }
}
