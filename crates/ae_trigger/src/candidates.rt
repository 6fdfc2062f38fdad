//! Candidates: terms of a body that may stand in a trigger.
ghost use Rattle.std.specs.Prelude.{◌≡◌, ◌++◌, IfOk, OnOk};
ghost use Rattle.ae_rules.specs.Linear as linear;
ghost use Rattle.ae_journal.specs.Triggers as definition;
ghost use Rattle.ae_trigger.specs.Inner.Candidates as spec;

use ae_computing::forms::number_of;
use ae_core::copies::{copy_sort, copy_sorts};
use ae_core::lists::{Boxed, List};
use ae_core::problems::{Nature, Signature};
use ae_core::terms::{Head, Op, Term};
use std::alloc::{AllocError, Global};

/// Whether the linear form of a term is a number, exactly, whatever its size.
#[tactic(auto, using(crate::proofs::CandidateLaws::is_known, crate::proofs::CandidateLaws::is_unknown))]
fn is_number(alloc: Global, term: &Term) -> Result<bool, AllocError>
    ensures { IfOk result (λ b. b ≡ linear.is_number (linear.form term.now)) }
{
    match number_of(alloc, term)? {
        Some(_) => Ok(true),
        None => Ok(false),
    }
}

/// Whether a symbol is a constructor.
fn is_constructor(signature: &Signature, symbol: usize) -> bool
    ensures { result ≡ definition.is_constructor signature.now symbol }
{
    match signature.symbols.get(symbol) {
        None => false,
        Some(entry) => match entry.nature {
            Nature::Free => false,
            Nature::Ac => false,
            Nature::Choice { .. } => true,
        },
    }
}

/// Whether neither of two factors is a number.
fn are_factors(alloc: Global, left: &Term, right: &Term) -> Result<bool, AllocError>
    ensures { IfOk result (λ b. b ≡ spec.are_factors left.now right.now) }
{
    let first = is_number(alloc, left)?;
    if first {
        return Ok(false);
    }
    let second = is_number(alloc, right)?;
    Ok(!second)
}

/// Whether these are two factors of which neither is a number.
fn is_product(alloc: Global, args: &[Term]) -> Result<bool, AllocError>
    ensures { IfOk result (λ b. b ≡ spec.is_product args.now) }
{
    match args {
        [left, right] => are_factors(alloc, left, right),
        _ => Ok(false),
    }
}

/// Whether an application is a candidate.
#[tactic(auto, using(crate::proofs::CandidateLaws::product_rules))]
fn is_candidate(
    alloc: Global,
    signature: &Signature,
    head: Head,
    args: &[Term],
) -> Result<bool, AllocError>
    ensures { IfOk result (λ b. b ≡ definition.is_candidate signature.now head args.now) }
{
    match head {
        Head::Symbol(symbol) => Ok(!is_constructor(signature, symbol)),
        Head::Field { .. } => Ok(true),
        Head::Int(Op::Mul) => is_product(alloc, args),
        Head::Real(Op::Mul) => is_product(alloc, args),
        _ => Ok(false),
    }
}

/// The term as it is outside of so many inner variables; none where it has one of them.
#[cycle(outer)]
#[tactic(auto, using(crate::proofs::CandidateLaws::outer_rules))]
fn outer(alloc: Global, depth: usize, term: &Term) -> Result<Option<Term>, AllocError>
    ensures { IfOk result (λ t. t ≡ definition.outer depth term.now) }
{
    match term {
        Term::Bound(distance) => {
            if *distance < depth {
                Ok(None)
            } else {
                Ok(Some(Term::Bound(*distance - depth)))
            }
        }
        Term::Num { top, bottom, real } => Ok(Some(Term::Num {
            top: *top,
            bottom: *bottom,
            real: *real,
        })),
        Term::Fresh { number, sort } => {
            let copy = copy_sort(alloc, sort.get())?;
            Ok(Some(Term::Fresh {
                number: *number,
                sort: Boxed::new(alloc, copy)?,
            }))
        }
        Term::Apply { head, sorts, args } => match outers(alloc, depth, args.as_slice())? {
            None => Ok(None),
            Some(terms) => Ok(Some(Term::Apply {
                head: *head,
                sorts: copy_sorts(alloc, sorts.as_slice())?,
                args: terms,
            })),
        },
    }
}

/// The same for a list of terms.
#[cycle(outer)]
#[tactic(auto, using(ae_base::proofs::Options::known_step, ae_base::proofs::Options::known_stop))]
fn outers(alloc: Global, depth: usize, terms: &[Term]) -> Result<Option<List<Term>>, AllocError>
    ensures { IfOk result (λ ts. ts ≡ spec.outers depth terms.now) }
{
    let mut found = List::new(alloc);
    for term in terms {
        match outer(alloc, depth, term)? {
            None => return Ok(None),
            Some(kept) => found.push(kept)?,
        }
    }
    Ok(Some(found))
}

/// Puts an application where it is a candidate without an inner variable.
fn put_whole(
    alloc: Global,
    signature: &Signature,
    depth: usize,
    term: &Term,
    head: Head,
    args: &[Term],
    found: &mut List<Term>,
) -> Result<(), AllocError>
    ensures { OnOk result (found.new ≡ found.old ++ spec.whole_candidate signature.now depth term.now head args.now) }
{
    let passes = is_candidate(alloc, signature, head, args)?;
    if passes {
        if let Some(kept) = outer(alloc, depth, term)? {
            found.push(kept)?;
        }
    }
    Ok(())
}

/// Puts a term's candidates behind what is there, those with an inner variable left out.
#[cycle(candidates)]
#[tactic(auto, using(crate::proofs::CandidateLaws::candidate_rules))]
pub fn put_candidates(
    alloc: Global,
    signature: &Signature,
    depth: usize,
    term: &Term,
    found: &mut List<Term>,
) -> Result<(), AllocError>
    ensures { OnOk result (found.new ≡ found.old ++ spec.outer_candidates signature.now depth term.now) }
{
    match term {
        Term::Bound(_) => Ok(()),
        Term::Num { .. } => Ok(()),
        Term::Fresh { .. } => Ok(()),
        Term::Apply { head, args, .. } => {
            put_whole(alloc, signature, depth, term, *head, args.as_slice(), found)?;
            put_all(alloc, signature, depth, args.as_slice(), found)?;
            Ok(())
        }
    }
}

/// The same for a list of terms.
#[cycle(candidates)]
fn put_all(
    alloc: Global,
    signature: &Signature,
    depth: usize,
    terms: &[Term],
    found: &mut List<Term>,
) -> Result<(), AllocError>
    ensures { OnOk result (found.new ≡ found.old ++ spec.outer_candidates_of signature.now depth terms.now) }
{
    for term in terms {
        put_candidates(alloc, signature, depth, term, found)?;
    }
    Ok(())
}
