//! Laws of lines and widths. These functions do nothing: each one's contract is a theorem.
ghost use Rattle.ae_name_licences.specs.Laws.{DifferencesAreLicensed, LeftFactorsAreLicensed, NegationsFit, PutsAreLicensed, QuotientsAreLicensed};
ghost use Rattle.ae_name_licences.specs.Laws.{RightFactorsAreLicensed, ScalingsAreLicensed, SolvedLeavesAreLegal, SolvedNumbersAreLegal, StoresAreInStep};
ghost use Rattle.ae_name_licences.specs.Laws.{SubtractionsAreLicensed, SumsAreLicensed, TurnedLeavesAreLegal};

/// The names of a store, with values in step with a journal that the store names.
pub fn stores_are_in_step()
    ensures { StoresAreInStep }
{}

/// Where the equation of two names of different values follows, the line that solves it is legal: the largest name of the
/// difference of two numbers gets the value that makes it 0, and the larger of two other names the smaller.
pub fn solve_lines_are_legal()
    ensures numbers { SolvedNumbersAreLegal }
    ensures leaves { SolvedLeavesAreLegal }
    ensures turned { TurnedLeavesAreLegal }
{}

/// The widths of such a difference are licensed, and those of its multiple that is the solution. The negated form of a
/// difference is never wide.
pub fn widths_of_solving_are_licensed()
    ensures negations { NegationsFit }
    ensures differences { DifferencesAreLicensed }
    ensures scalings { ScalingsAreLicensed }
{}

/// The widths of a number that is put for a name in a value are licensed, where the last line is the `solve`.
pub fn widths_of_puts_are_licensed()
    ensures { PutsAreLicensed }
{}

/// The widths of a new name's value are licensed: of a sum or a difference of its operands, of an operand times a
/// constant factor or the inverse of a numeral.
pub fn widths_of_new_names_are_licensed()
    ensures sums { SumsAreLicensed }
    ensures subtractions { SubtractionsAreLicensed }
    ensures left_factors { LeftFactorsAreLicensed }
    ensures right_factors { RightFactorsAreLicensed }
    ensures quotients { QuotientsAreLicensed }
{}
