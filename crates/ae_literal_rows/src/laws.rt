//! Laws of the definitions. These functions do nothing: each one's contract is a theorem.
ghost use Rattle.ae_literal_rows.specs.Laws.{AddedRowsAreKept, SystemValuesAreNow};

/// The rows that were added for the literals of a trail are kept for these in each journal that is beside the state and in which just the marked ones surely stand.
pub fn added_rows_are_kept()
    ensures { AddedRowsAreKept }
{}

/// The values of a state's system are those by which a journal beside it stands.
pub fn system_values_are_now()
    ensures { SystemValuesAreNow }
{}
