//! Laws of the definitions. These functions do nothing: each one's contract is a theorem.
ghost use Rattle.ae_inequalities.specs.Held.{FitsMore};

/// Rows that fit a store fit each store with more terms.
pub fn fits_more()
    ensures { FitsMore }
{}
