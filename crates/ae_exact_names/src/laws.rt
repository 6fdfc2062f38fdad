//! Laws of names that are the same. The function does nothing: its contract is a theorem.
ghost use Rattle.ae_exact_names.specs.Exact.{PlainConsequencesAreSame, PlainNamesMakePlainSteps, PredicatesAreThemselvesAlone, SameIsConsequence, SameIsPlainConsequence};

use ae_evaluation::laws::names_with_equal_values;
use ae_state_steps::laws::{first_values_have_a_step, names_of_one_value_have_a_step};

/// Names that are the same are equal by consequence of the assumed equations; where all names are plain, by lines over plain terms, since the steps
/// that are held speak of such alone. Where nothing is left to do, two names whose equation follows from these within the plain terms are the same.
/// The name of a predicate's application is the same as itself alone.
pub fn same_is_exact()
    ensures consequence { SameIsConsequence }
    ensures steps { PlainNamesMakePlainSteps }
    ensures plain { SameIsPlainConsequence }
    ensures same { PlainConsequencesAreSame }
    ensures predicates { PredicatesAreThemselvesAlone }
{
    first_values_have_a_step();
    names_of_one_value_have_a_step();
    names_with_equal_values();
}
