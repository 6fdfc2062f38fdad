//! Laws of denominators. These functions do nothing: each one's contract is a theorem. A line that derives the value of a name from those of others
//! multiplies its equation by a whole number, which these laws give.
ghost use Rattle.ae_denominators.specs.Denominators.{WholeDenominator, SumDenominator, DifferenceDenominator, MultipleDenominator, PutDenominator, SolvedDenominator};

/// The denominator of a normal form divides each number over which the form's meaning has whole factors.
pub fn a_normal_form_has_the_least_denominator()
    ensures { WholeDenominator }
{}

/// The denominator of a sum or a difference divides the product of the two denominators.
pub fn sums_are_over_the_product()
    ensures sum { SumDenominator }
    ensures difference { DifferenceDenominator }
{}

/// The denominator of a form times `c / d` divides the product of the form's and `d`.
pub fn multiples_are_over_the_product()
    ensures { MultipleDenominator }
{}

/// Where a value is put for a name in another, the denominator divides the product of the two.
pub fn values_put_are_over_the_product()
    ensures { PutDenominator }
{}

/// The denominator of the value at which a form is 0 divides the factor of the name in the form.
pub fn solved_values_are_over_the_factor()
    ensures { SolvedDenominator }
{}
