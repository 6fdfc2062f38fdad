//! The candidates of a body, in the order of its text.
ghost use Rattle.std.specs.Prelude.{◌≡◌, ◌++◌, ◌+◌, length, IfOk, OnOk};
ghost use Rattle.ae_journal.specs.Triggers as definition;
ghost use Rattle.ae_core.specs.declared.terms.Term.{Apply};
ghost use Rattle.ae_core.specs.declared.terms.Head.TheVariants.{Symbol};
ghost use Rattle.ae_trigger.specs.Inner.Candidates as spec;

use crate::candidates::put_candidates;
use crate::kept::once_each;
use ae_core::copies::{copy_sorts, copy_terms};
use ae_core::formulas::{Formula, Quant};
use ae_core::lists::List;
use ae_core::problems::Signature;
use ae_core::terms::{Head, Sort, Term};
use std::alloc::{AllocError, Global};

/// Puts the candidates of two terms.
fn put_two(
    alloc: Global,
    signature: &Signature,
    depth: usize,
    left: &Term,
    right: &Term,
    found: &mut List<Term>,
) -> Result<(), AllocError>
    ensures { OnOk result (found.new ≡ spec.with_two signature.now depth left.now right.now found.old) }
{
    put_candidates(alloc, signature, depth, left, found)?;
    put_candidates(alloc, signature, depth, right, found)?;
    Ok(())
}

/// A predicate's application, as a term.
fn atom(alloc: Global, symbol: usize, sorts: &[Sort], args: &[Term]) -> Result<Term, AllocError>
    ensures { IfOk result (λ t. t ≡ Apply (Symbol symbol) sorts.now args.now) }
{
    Ok(Term::Apply {
        head: Head::Symbol(symbol),
        sorts: copy_sorts(alloc, sorts)?,
        args: copy_terms(alloc, args)?,
    })
}

/// Puts the candidates of a block's body. Where its variables and those around it are 2^64 or more, there is no memory for the formula.
#[cycle(put_body)]
fn put_block(
    alloc: Global,
    signature: &Signature,
    depth: usize,
    quant: &Quant,
    found: &mut List<Term>,
) -> Result<(), AllocError>
    ensures { OnOk result (found.new ≡ spec.with_body signature.now (depth + length quant.now.sorts) quant.now.body found.old) }
{
    let within = depth
        .checked_add(quant.sorts.as_slice().len())
        .ok_or(AllocError)?;
    put_body(alloc, signature, within, quant.body.get(), found)?;
    Ok(())
}

/// Puts a formula's candidates behind what is there, those with an inner variable left out.
#[cycle(put_body)]
#[tactic(auto, using(crate::proofs::BodyRules::body_rules))]
fn put_body(
    alloc: Global,
    signature: &Signature,
    depth: usize,
    formula: &Formula,
    found: &mut List<Term>,
) -> Result<(), AllocError>
    ensures { OnOk result (found.new ≡ spec.with_body signature.now depth formula.now found.old) }
{
    match formula {
        Formula::True => Ok(()),
        Formula::False => Ok(()),
        Formula::Eq { left, right } => {
            put_two(alloc, signature, depth, left, right, found)?;
            Ok(())
        }
        Formula::Lt { left, right } => {
            put_two(alloc, signature, depth, left, right, found)?;
            Ok(())
        }
        Formula::Le { left, right } => {
            put_two(alloc, signature, depth, left, right, found)?;
            Ok(())
        }
        Formula::Pred {
            symbol,
            sorts,
            args,
        } => {
            let atom = atom(alloc, *symbol, sorts.as_slice(), args.as_slice())?;
            put_candidates(alloc, signature, depth, &atom, found)?;
            Ok(())
        }
        Formula::Not(part) => {
            put_body(alloc, signature, depth, part.get(), found)?;
            Ok(())
        }
        Formula::And(left, right) => {
            put_body(alloc, signature, depth, left.get(), found)?;
            put_body(alloc, signature, depth, right.get(), found)?;
            Ok(())
        }
        Formula::Or(left, right) => {
            put_body(alloc, signature, depth, left.get(), found)?;
            put_body(alloc, signature, depth, right.get(), found)?;
            Ok(())
        }
        Formula::Xor(left, right) => {
            put_body(alloc, signature, depth, left.get(), found)?;
            put_body(alloc, signature, depth, right.get(), found)?;
            Ok(())
        }
        Formula::Iff(left, right) => {
            put_body(alloc, signature, depth, left.get(), found)?;
            put_body(alloc, signature, depth, right.get(), found)?;
            Ok(())
        }
        Formula::All(quant) => {
            put_block(alloc, signature, depth, quant, found)?;
            Ok(())
        }
        Formula::Ex(quant) => {
            put_block(alloc, signature, depth, quant, found)?;
            Ok(())
        }
    }
}

/// The candidates of a body, each once.
#[tactic(auto, using(crate::proofs::BodyRules::body_is))]
pub fn body_candidates(
    alloc: Global,
    signature: &Signature,
    body: &Formula,
) -> Result<List<Term>, AllocError>
    ensures { IfOk result (λ ts. ts ≡ definition.body_candidates signature.now body.now) }
{
    let mut found = List::new(alloc);
    put_body(alloc, signature, 0, body, &mut found)?;
    let each = once_each(alloc, found.as_slice())?;
    Ok(each)
}
