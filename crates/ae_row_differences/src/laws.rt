//! Laws of the definitions. These functions do nothing: each one's contract is a theorem.
ghost use Rattle.ae_row_differences.specs.Laws.{InequalityWidthsAreLicensed};

/// Where an inequality literal may stand, a step outside the limits of the difference of its sides' values is licensed.
pub fn inequality_widths_are_licensed()
    ensures { InequalityWidthsAreLicensed }
{}
