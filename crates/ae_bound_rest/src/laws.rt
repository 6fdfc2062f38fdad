//! Laws of the definitions. These functions do nothing: each one's contract is a theorem.
ghost use Rattle.ae_bound_rest.specs.Laws.{AgreementIsKept, RestIsLegal, RestWidthsAreLicensed, RestLeavesNothing, MakingWidthsAreLicensed};

/// Rows that agree with a journal still do after combinations of them were noted.
pub fn agreement_is_kept()
    ensures { AgreementIsKept }
{}

/// The lines of the rest are legal, and a width of one of its combinations is licensed.
pub fn rest_is_legal()
    ensures lines { RestIsLegal }
    ensures widths { RestWidthsAreLicensed }
{}

/// After the rest was noted no combination is left.
pub fn rest_leaves_nothing()
    ensures { RestLeavesNothing }
{}

/// A step of the making of the point of kept rows that leaves the limits is licensed after the rest was noted.
pub fn making_widths_are_licensed()
    ensures { MakingWidthsAreLicensed }
{}
