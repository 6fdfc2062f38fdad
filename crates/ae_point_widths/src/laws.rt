//! Laws of the definitions. These functions do nothing: each one's contract is a theorem.
ghost use Rattle.ae_point_widths.specs.Laws.{PointWidthsAreLicensed};

/// Where no combination is left, and the rows of a point are those that stand, a step of its making that leaves the limits is licensed.
pub fn point_widths_are_licensed()
    ensures { PointWidthsAreLicensed }
{}
