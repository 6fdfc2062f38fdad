//! Laws of the definitions. These functions do nothing: each one's contract is a theorem.
ghost use Rattle.ae_bound_widths.specs.Laws.{KeptPointWidthsAreLicensed};
ghost use Rattle.ae_bound_widths.specs.Fractions.{StepsAreKept, NoneIsLeft, FinishedWidthsAreLicensed};

/// Where the kept rows stand in a journal, cover all that stand there, and no combination is left, a step of the making of their point that leaves the limits
/// is licensed.
pub fn kept_point_widths_are_licensed()
    ensures { KeptPointWidthsAreLicensed }
{}

/// Rows over fractions that agree with a journal still do after combinations of them were noted.
pub fn rows_stay_in_step()
    ensures { StepsAreKept }
{}

/// After all combinations of rows over fractions were noted none is left, and a step of the making of their point that leaves the limits is licensed.
pub fn finished_rows_leave_nothing()
    ensures none { NoneIsLeft }
    ensures widths { FinishedWidthsAreLicensed }
{}
