//! Formulas and literals.
ghost use Rattle.std.specs.Prelude.{◌≡◌, true};
ghost use Rattle.std.specs.List.{list_all};
ghost use Rattle.ae_counts.specs.Inner.Counted as spec;

use crate::terms::{sorts_count, term_counts, terms_count, triggers_count};
use ae_core::formulas::{Formula, Lit, Quant};
use ae_core::terms::Term;

// The numbers that two terms show have 64 bits.
pub(crate) fn sides_count(left: &Term, right: &Term)
    ensures { spec.sides_count left.now right.now ≡ true }
{
    term_counts(left);
    term_counts(right);
}

// Those that a formula shows have.
#[cycle(formulas)]
#[tactic(auto, using(crate::proofs::TreeRules::formula_rules))]
pub(crate) fn formula_counts(formula: &Formula)
    ensures { spec.formula_counts formula.now ≡ true }
{
    match formula {
        Formula::True => {}
        Formula::False => {}
        Formula::Eq { left, right } => sides_count(left, right),
        Formula::Lt { left, right } => sides_count(left, right),
        Formula::Le { left, right } => sides_count(left, right),
        Formula::Pred { sorts, args, .. } => {
            sorts_count(sorts.as_slice());
            terms_count(args.as_slice());
        }
        Formula::Not(part) => formula_counts(part.get()),
        Formula::And(left, right) => {
            formula_counts(left.get());
            formula_counts(right.get());
        }
        Formula::Or(left, right) => {
            formula_counts(left.get());
            formula_counts(right.get());
        }
        Formula::Xor(left, right) => {
            formula_counts(left.get());
            formula_counts(right.get());
        }
        Formula::Iff(left, right) => {
            formula_counts(left.get());
            formula_counts(right.get());
        }
        Formula::All(quant) => quant_counts(quant),
        Formula::Ex(quant) => quant_counts(quant),
    }
}

#[cycle(formulas)]
#[tactic(auto, using(crate::proofs::TreeRules::formula_rules))]
fn quant_counts(quant: &Quant)
    ensures { spec.quant_counts quant.now ≡ true }
{
    sorts_count(quant.sorts.as_slice());
    triggers_count(quant.triggers.as_slice());
    formula_counts(quant.body.get());
}

// Those of a literal have.
pub(crate) fn literal_counts(literal: &Lit)
    ensures { spec.literal_counts literal.now ≡ true }
{
    formula_counts(&literal.formula);
}

pub(crate) fn literals_count(literals: &[Lit])
    ensures { list_all spec.literal_counts literals.now ≡ true }
{
    for literal in literals {
        literal_counts(literal);
    }
}
