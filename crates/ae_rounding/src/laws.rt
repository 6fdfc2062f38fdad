//! Laws of the definitions. These functions do nothing: each one's contract is a theorem.
ghost use Rattle.ae_rounding.specs.Laws.{RoundedRowsStand, CombinationsAreWhole, RoundedRowsAreWhole, RoundedCombinationsAreLegal, RoundingIsALine};

/// A rounded row stands where the row stands.
pub fn rounded_rows_stand()
    ensures { RoundedRowsStand }
{}

/// Rows whose names are all of sort `int` have combinations and rounded rows with such names alone.
pub fn rows_stay_whole()
    ensures combined { CombinationsAreWhole }
    ensures rounded { RoundedRowsAreWhole }
{}

/// The rounded combination of two rows that stand is a legal line, where it is no positive multiple of a row that is surely there.
pub fn rounded_combinations_are_legal()
    ensures { RoundedCombinationsAreLegal }
{}

/// Rounding a row is an allowed derived line between the terms that say the row and the rounded one.
pub fn rounding_is_a_line()
    ensures { RoundingIsALine }
{}
