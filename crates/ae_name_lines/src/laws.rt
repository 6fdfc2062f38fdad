//! Laws of values and lines. These functions do nothing: each one's contract is a theorem.
ghost use Rattle.ae_name_lines.specs.Laws.{FieldsFollowRecords, LeastNamesRepresent, LeastNamesRepresentNow, LeastNamesStay, MoreNamesKeepSolves};
ghost use Rattle.ae_name_lines.specs.Laws.{NewNamesAreInStep, NumeralsAreNumbers, OperationsAreStated, OtherLinesKeepStep, OtherLinesKeepValues};
ghost use Rattle.ae_name_lines.specs.Laws.{OtherLinesSolveNothing, OtherNamesRepresentNothing, OwnLeavesAreOwn, OwnNumbersAreOwn, PutLeavesAreInStep};
ghost use Rattle.ae_name_lines.specs.Laws.{PutNumbersAreInStep, SolvesGrow, StoresAreClosed, TermsKeepValues, UnsolvedTermsAreLeaves, ValuesStayInStep};
ghost use Rattle.ae_name_lines.specs.Laws.{WrittenFieldsAreArguments};

use ae_evaluation::laws::values_have_shapes;

/// With each term of a store stand its arguments and its fields.
pub fn stores_are_closed()
    ensures { StoresAreClosed }
{}

/// Where more names come, each term keeps its value by the lines and each name its representative, and values that were
/// in step stay so.
pub fn more_names_change_nothing()
    ensures values { TermsKeepValues }
    ensures least { LeastNamesStay }
    ensures step { ValuesStayInStep }
{}

/// Values of new names are in step, where no line has solved one of them and what nothing computes is its own value.
pub fn new_names_are_in_step()
    ensures { NewNamesAreInStep }
{
    values_have_shapes();
}

/// The values of terms by their kinds, where perhaps not all names have values yet: numerals, linear operations, fields of
/// equal records and of written ones, what nothing computes and no line has solved, and written values that are own ones.
pub fn terms_have_the_values_of_their_kinds()
    ensures numerals { NumeralsAreNumbers }
    ensures operations { OperationsAreStated }
    ensures fields { FieldsFollowRecords }
    ensures written { WrittenFieldsAreArguments }
    ensures unsolved { UnsolvedTermsAreLeaves }
    ensures own_number { OwnNumbersAreOwn }
    ensures own_leaf { OwnLeavesAreOwn }
{
    values_have_shapes();
}

/// A `solve` line is in step with what it puts for its name: a number, or a name of another sort.
pub fn put_values_are_in_step()
    ensures numbers { PutNumbersAreInStep }
    ensures leaves { PutLeavesAreInStep }
{}

/// Any other line changes no value.
pub fn other_lines_change_no_value()
    ensures values { OtherLinesKeepValues }
    ensures step { OtherLinesKeepStep }
{}

/// Lines that solve only names below a number do so where the number grows, after a `solve` line of a name below it, and
/// after any other line.
pub fn solved_names_stay_below()
    ensures more { MoreNamesKeepSolves }
    ensures solve { SolvesGrow }
    ensures other { OtherLinesSolveNothing }
{}

/// Where values are in step, the least name of a sort with a value is the representative of each such name, among the names
/// themselves and in a journal that has more names; no other one represents anything.
pub fn least_names_represent()
    ensures least { LeastNamesRepresent }
    ensures now { LeastNamesRepresentNow }
    ensures others { OtherNamesRepresentNothing }
{}
