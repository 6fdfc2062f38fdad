//! Literals.
ghost use Rattle.std.specs.Prelude.{◌≡◌, IfOk, map};
ghost use Rattle.ae_rules.specs.Clauses as spec;

use ae_core::copies::copy_formula;
use ae_core::formulas::{Clause, Formula, Lit};
use ae_core::lists::List;
use std::alloc::{AllocError, Global};

/// The literal of a formula as it stands, true or false by the sign.
pub fn signed(alloc: Global, sign: bool, formula: &Formula) -> Result<Lit, AllocError>
    ensures { IfOk result (λ l. l ≡ record { positive = sign; formula = formula.now }) }
{
    Ok(Lit {
        positive: sign,
        formula: copy_formula(alloc, formula)?,
    })
}

/// The literal that a formula, as it stands, is true.
pub fn stands(alloc: Global, formula: &Formula) -> Result<Lit, AllocError>
    ensures { IfOk result (λ l. l ≡ spec.is_true formula.now) }
{
    signed(alloc, true, formula)
}

/// The literal that a formula, as it stands, is false.
pub fn fails(alloc: Global, formula: &Formula) -> Result<Lit, AllocError>
    ensures { IfOk result (λ l. l ≡ spec.is_false formula.now) }
{
    signed(alloc, false, formula)
}

/// The literal that says that a formula is true, or by the sign that it is false. A negation turns the sign.
#[tactic(auto, using(crate::proofs::ClauseLaws::literal_rules))]
pub fn literal(alloc: Global, sign: bool, formula: &Formula) -> Result<Lit, AllocError>
    ensures { IfOk result (λ l. l ≡ spec.literal sign formula.now) }
{
    match formula {
        Formula::Not(part) => literal(alloc, !sign, part.get()),
        Formula::True => signed(alloc, sign, formula),
        Formula::False => signed(alloc, sign, formula),
        Formula::Eq { .. } => signed(alloc, sign, formula),
        Formula::Lt { .. } => signed(alloc, sign, formula),
        Formula::Le { .. } => signed(alloc, sign, formula),
        Formula::Pred { .. } => signed(alloc, sign, formula),
        Formula::And(_, _) => signed(alloc, sign, formula),
        Formula::Or(_, _) => signed(alloc, sign, formula),
        Formula::Xor(_, _) => signed(alloc, sign, formula),
        Formula::Iff(_, _) => signed(alloc, sign, formula),
        Formula::All(_) => signed(alloc, sign, formula),
        Formula::Ex(_) => signed(alloc, sign, formula),
    }
}

/// The literal that says that a formula is true; it never has a negation at its head.
pub fn yes_of(alloc: Global, formula: &Formula) -> Result<Lit, AllocError>
    ensures { IfOk result (λ l. l ≡ spec.yes_of formula.now) }
{
    literal(alloc, true, formula)
}

/// The literal that says that a formula is false; it never has a negation at its head.
pub fn no_of(alloc: Global, formula: &Formula) -> Result<Lit, AllocError>
    ensures { IfOk result (λ l. l ≡ spec.no_of formula.now) }
{
    literal(alloc, false, formula)
}

/// The literal with the other sign.
pub fn opposite(alloc: Global, lit: &Lit) -> Result<Lit, AllocError>
    ensures { IfOk result (λ l. l ≡ spec.opposite lit.now) }
{
    signed(alloc, !lit.positive, &lit.formula)
}

/// The opposite of each literal, in their order.
pub fn opposites(alloc: Global, lits: &[Lit]) -> Result<Clause, AllocError>
    ensures { IfOk result (λ c. c ≡ map spec.opposite lits.now) }
{
    let mut clause = List::new(alloc);
    for lit in lits {
        clause.push(opposite(alloc, lit)?)?;
    }
    Ok(clause)
}
