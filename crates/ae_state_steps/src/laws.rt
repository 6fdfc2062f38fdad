//! Laws of the steps of values and of multisets. These functions do nothing: each one's contract is a theorem. The equation of a name's value is
//! `den * name = sum`.
ghost use Rattle.ae_state_steps.specs.ManySteps.{NameStep, ExtendStep, OrderStep};
ghost use Rattle.ae_state_steps.specs.ValueSteps.{NumeralStep, LeafStep, SumStep, DifferenceStep, MultipleStep, CoveredStep, PutStep, ApartStep, SolvedStep, AlikeStep};

/// A numeral has its value, and a name that is its own value too, by a step without premises.
pub fn first_values_have_a_step()
    ensures numeral { NumeralStep }
    ensures leaf { LeafStep }
{}

/// The value of a sum or a difference, from those of its two arguments.
pub fn sums_have_a_step()
    ensures sum { SumStep }
    ensures difference { DifferenceStep }
{}

/// The value of a name that is a fraction times another.
pub fn multiples_have_a_step()
    ensures { MultipleStep }
{}

/// The value of a name that another step equates with a name of that value.
pub fn covered_names_have_a_step()
    ensures { CoveredStep }
{}

/// The value of a name in which the value of another was put for that name.
pub fn changed_values_have_a_step()
    ensures { PutStep }
{}

/// The equation of two names says that the difference of their values is 0, and the name for which that is solved has its value.
pub fn solved_equations_have_steps()
    ensures apart { ApartStep }
    ensures solved { SolvedStep }
{}

/// Two names of one value are equal.
pub fn names_of_one_value_have_a_step()
    ensures { AlikeStep }
{}

/// The multiset of the two arguments of a name is that name.
pub fn names_of_symbols_have_a_step()
    ensures { NameStep }
{}

/// Two multisets that a step equates are equal with one more name each, where a step equates the names.
pub fn longer_multisets_have_a_step()
    ensures { ExtendStep }
{}

/// Two lists of the same names, each as often, are equal.
pub fn orders_have_a_step()
    ensures { OrderStep }
{}
