//! Laws of the definitions. These functions do nothing: each one's contract is a theorem.
ghost use Rattle.ae_bound_lines.specs.Standing.{AssumedRowsStand, ExtensionsAreLegal, WidthsAreLicensed};

/// A row that is assumed, of a form that stands, stands as well where it is rounded.
pub fn assumed_rows_stand()
    ensures { AssumedRowsStand }
{}

/// Rows that stand, extended by combinations that are no positive multiples of a row, still stand, and each noted line is legal.
pub fn extensions_are_legal()
    ensures { ExtensionsAreLegal }
{}

/// A step outside the limits that `close` answers is licensed where the rows stand.
pub fn widths_are_licensed()
    ensures { WidthsAreLicensed }
{}
