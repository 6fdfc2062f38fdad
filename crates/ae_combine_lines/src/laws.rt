//! Laws of the definitions. These functions do nothing: each one's contract is a theorem.
ghost use Rattle.ae_combine_lines.specs.Laws.{ValuesStay, LiteralsStay, NothingIsSurer, RowsStay, OwnRowStands, SureRowsStay, CombinationsAreLegal, MultiplesAreOfForms};

/// A `Combine` line leaves the values and what may stand, and nothing more surely stands after it.
pub fn literals_stay()
    ensures values { ValuesStay }
    ensures may { LiteralsStay }
    ensures surely { NothingIsSurer }
{}

/// After a `Combine` line each row stands that stood before it, and the line's own.
pub fn rows_stay()
    ensures rows { RowsStay }
    ensures own { OwnRowStands }
    ensures sure { SureRowsStay }
{}

/// The combination of two rows that stand is a legal line, where it is no positive multiple of a row that is surely there.
pub fn combinations_are_legal()
    ensures legal { CombinationsAreLegal }
    ensures multiples { MultiplesAreOfForms }
{}
