//! Laws of names that are taken in. These functions do nothing: each one's contract is a theorem.
ghost use Rattle.ae_new_widths.specs.Laws.{OpaqueNamesAreFree, TakingWidthsAreLicensed};

use ae_name_lines::laws::terms_have_the_values_of_their_kinds;

/// A name whose term nothing computes isn't computed, and comes down to itself.
pub fn opaque_names_are_free()
    ensures { OpaqueNamesAreFree }
{}

/// A width that refuses a name is licensed, where the values of the names that had some are those that the lines make of their terms.
pub fn widths_of_names_taken_in_are_licensed()
    ensures { TakingWidthsAreLicensed }
{
    terms_have_the_values_of_their_kinds();
}
