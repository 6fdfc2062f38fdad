//! Laws of names that get values one after another. These functions do nothing: each one's contract is a theorem.
ghost use Rattle.ae_entering.specs.Laws.{ValuesAreFirst, FirstsAreValues, EntriesFit, ConstantsHaveTheirNumber, NextIsFirst};

/// Where what is known of all names is what their terms say, their values are made as a system's are.
pub fn entries_of_all_names_fit()
    ensures { EntriesFit }
{}

/// The first names of a system's have the numbers and the leaves that their terms give.
pub fn values_of_a_system_are_first()
    ensures { ValuesAreFirst }
{}

/// Where all names have the numbers and the leaves that their terms give, these are a system's values.
pub fn first_values_of_all_names_are_a_systems()
    ensures { FirstsAreValues }
{}

/// A name whose linear form is a number has that number.
pub fn names_of_constants_have_their_number()
    ensures { ConstantsHaveTheirNumber }
{}

/// Where the next name gets what its term gives it, one name more is among the first.
pub fn the_next_name_is_among_the_first()
    ensures { NextIsFirst }
{}
