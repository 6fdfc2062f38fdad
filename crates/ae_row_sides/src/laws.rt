//! Laws of the definitions. These functions do nothing: each one's contract is a theorem.
ghost use Rattle.ae_row_sides.specs.Laws.{SidesAreWhole, SidesAreKept, SidesAreOrdered};

/// The sides of a row of integers are integers.
pub fn sides_are_whole()
    ensures { SidesAreWhole }
{}

/// With more names behind, the sides of a row of names are the same.
pub fn sides_are_kept()
    ensures { SidesAreKept }
{}

/// The sides of a row of integers are equal, or one is below the other.
pub fn sides_are_ordered()
    ensures { SidesAreOrdered }
{}
