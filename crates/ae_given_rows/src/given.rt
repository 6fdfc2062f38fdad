//! The lines that say the row of an inequality between two names, by those that say their values.
ghost use Rattle.std.specs.Prelude.{◌≡◌, ◌<◌, ◌+◌, ◌*ℤ◌, neg_ℤ, ◌∷◌, ◌++◌, [], suc, length, IfOk};
ghost use Rattle.ae_math.specs.Forms.{minus};
ghost use Rattle.ae_num.specs.Forms.{meaning, SameMeaning, IsNormal};
ghost use Rattle.ae_num.specs.Limits.{FitsLimits};
ghost use Rattle.ae_theory.specs.Names.{terms_in};
ghost use Rattle.ae_bound_blocks.specs.Said.{IsGiven};
ghost use Rattle.ae_given_rows.specs.Sides.{IsTold, IsBetween};
ghost use Rattle.ae_given_rows.specs.Inner.Lines.{hyp_line};

use ae_bound_blocks::given::Given;
use ae_bound_blocks::lines::{line_times, row_line};
use ae_core::copies::copy_lit;
use ae_core::formulas::Lit;
use ae_core::lists::List;
use ae_core::proofs::{Deriv, EqLine, Scaled};
use ae_denominators::laws::sums_are_over_the_product;
use ae_derivations::joining::joined;
use ae_num::forms::{Lin, Name};
use ae_store::store::Store;
use std::alloc::{AllocError, Global};

/// A name, its value, and lines of which the last says that it has this value.
#[derive(Clone, Copy)]
pub struct Side<'a> {
    pub name: Name,
    pub value: &'a Lin,
    pub why: &'a Deriv,
}

/// The line that takes up the hypothesis of number 0: the lower name is below the upper one, or at most that.
fn hypothesis(store: &Store, strict: bool, upper: Name, lower: Name) -> Result<EqLine, AllocError>
    requires upper { upper < length store.now.nodes }
    requires lower { lower < length store.now.nodes }
    ensures { IfOk result (λ l. l ≡ hyp_line (terms_in store.now) strict upper lower) }
{
    let left = store.term(lower)?;
    let right = store.term(upper)?;
    if strict {
        Ok(EqLine::LtHyp {
            left,
            right,
            hyp: 0,
        })
    } else {
        Ok(EqLine::LeHyp {
            left,
            right,
            hyp: 0,
        })
    }
}

/// The one hypothesis, and the line that takes it up.
fn from_literal(
    alloc: Global,
    store: &Store,
    lit: &Lit,
    strict: bool,
    upper: Name,
    lower: Name,
) -> Result<Deriv, AllocError>
    requires upper { upper < length store.now.nodes }
    requires lower { lower < length store.now.nodes }
    ensures hyps { IfOk result (λ d. d.hyps ≡ lit.now ∷ []) }
    ensures lines { IfOk result (λ d. d.lines ≡ hyp_line (terms_in store.now) strict upper lower ∷ []) }
{
    let line = hypothesis(store, strict, upper, lower)?;
    let mut lines = List::new(alloc);
    lines.push(line)?;
    let mut hyps = List::new(alloc);
    hyps.push(copy_lit(alloc, lit)?)?;
    Ok(Deriv { hyps, lines })
}

/// The number of the last line.
fn last_line(deriv: &Deriv) -> usize
    requires some { 0 < length deriv.now.lines }
    ensures { suc result ≡ length deriv.now.lines }
{
    deriv.lines.len() - 1
}

/// The product of two denominators.
fn product(left: i128, right: i128) -> i128
    requires { FitsLimits (left *ℤ right) }
    ensures { result ≡ left *ℤ right }
{
    left * right
}

/// A denominator times -1.
fn negated(number: i128) -> i128
    requires { FitsLimits number }
    ensures { result ≡ neg_ℤ number }
{
    -number
}

/// The parts of the line that adds up the hypothesis and the two values, by their factors.
fn parts_of(
    alloc: Global,
    whole: i128,
    opposite: i128,
    below: i128,
    below_line: usize,
    above_line: usize,
) -> Result<List<Scaled>, AllocError>
    ensures { IfOk result (λ ps. ps ≡ record { factor = whole; line = 0 } ∷ record { factor = opposite; line = below_line } ∷ record { factor = below; line = above_line } ∷ []) }
{
    let mut parts = List::new(alloc);
    parts.push(Scaled {
        factor: whole,
        line: 0,
    })?;
    parts.push(Scaled {
        factor: opposite,
        line: below_line,
    })?;
    parts.push(Scaled {
        factor: below,
        line: above_line,
    })?;
    Ok(parts)
}

/// A derivation with one line more.
fn with_line(deriv: Deriv, line: EqLine) -> Result<Deriv, AllocError>
    ensures hyps { IfOk result (λ d. d.hyps ≡ deriv.hyps) }
    ensures lines { IfOk result (λ d. d.lines ≡ deriv.lines ++ line ∷ []) }
{
    let Deriv { hyps, mut lines } = deriv;
    lines.push(line)?;
    Ok(Deriv { hyps, lines })
}

/// The lines that give the row of an inequality literal: the value of the upper name less that of the lower one isn't negative, or is positive where the literal
/// is strict.
///
/// The literal is the first hypothesis; those of the lower name's lines and of the upper one's come after it. `form` is the difference of the two values.
pub fn given_row(
    alloc: Global,
    store: &Store,
    lit: &Lit,
    strict: bool,
    real: bool,
    upper: &Side<'_>,
    lower: &Side<'_>,
    form: &Lin,
) -> Result<Given, AllocError>
    requires between { IsBetween (terms_in store.now) lit.now strict upper.now.name lower.now.name }
    requires upper { IsTold store.now.signature (terms_in store.now) real upper.now.name upper.now.value.now upper.now.why.now }
    requires lower { IsTold store.now.signature (terms_in store.now) real lower.now.name lower.now.value.now lower.now.why.now }
    requires normal { IsNormal form.now }
    requires difference { SameMeaning (meaning form.now) (minus (meaning upper.now.value.now) (meaning lower.now.value.now)) }
    requires within { FitsLimits (lower.now.value.now.den *ℤ upper.now.value.now.den) }
    ensures given { IfOk result (λ g. IsGiven store.now.signature (terms_in store.now) real (record { lin = form.now; strict = strict }) g) }
    ensures hyps { IfOk result (λ g. g.deriv.hyps ≡ lit.now ∷ lower.now.why.now.hyps ++ upper.now.why.now.hyps) }
    ensures real { IfOk result (λ g. g.real ≡ real) }
{
    sums_are_over_the_product();
    let _names = store.len();
    let first = from_literal(alloc, store, lit, strict, upper.name, lower.name)?;
    let second = joined(alloc, first, lower.why)?;
    let below_line = last_line(&second);
    let third = joined(alloc, second, upper.why)?;
    let above_line = last_line(&third);
    let whole = product(lower.value.den, upper.value.den);
    let opposite = negated(upper.value.den);
    let parts = parts_of(
        alloc,
        whole,
        opposite,
        lower.value.den,
        below_line,
        above_line,
    )?;
    let times = line_times(lower.value, upper.value, form);
    let line = row_line(alloc, store, real, strict, form, times, parts)?;
    let deriv = with_line(third, line)?;
    Ok(Given {
        deriv,
        multiple: form.den,
        real,
    })
}
