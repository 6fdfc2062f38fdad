//! Laws of the definitions. These functions do nothing: each one's contract is a theorem.
ghost use Rattle.ae_bound_points.specs.Points.{OpenRowsHaveAPoint};

/// Where no combination is left, no row is a number that can't be, and no combination is 0, the point that is built from the smallest name up
/// makes each row that isn't 0 positive.
pub fn open_rows_have_a_point()
    ensures { OpenRowsHaveAPoint }
{}
