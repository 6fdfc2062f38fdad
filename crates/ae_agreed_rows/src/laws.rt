//! Laws of the definitions. These functions do nothing: each one's contract is a theorem.
ghost use Rattle.ae_agreed_rows.specs.Laws.{FirstRowsAgree, MoreRowsAgree, RowsAreOfMore, CombinedRowsAreOf, ThoseRowsAreAssumed, PointsSatisfyLiterals, WholeRowsStand};

/// The rows of the inequality literals that stand in a journal agree with it, where those that surely stand are among these and no combination has come since
/// the last other line.
pub fn first_rows_agree()
    ensures { FirstRowsAgree }
{}

/// Rows that agree with a journal still do with the rows of more inequality literals that may stand.
pub fn more_rows_agree()
    ensures { MoreRowsAgree }
{}

/// Rows of some literals, with those of others beside them, are rows of both.
pub fn rows_are_of_more()
    ensures { RowsAreOfMore }
{}

/// After combinations of them were noted, rows of literals still are.
pub fn combined_rows_are_of()
    ensures { CombinedRowsAreOf }
{}

/// Where the inequality literals that may stand are among the literals, so are their rows, and each that counts is that of one which surely stands.
pub fn those_rows_are_assumed()
    ensures { ThoseRowsAreAssumed }
{}

/// A point of the rows satisfies the inequality literals.
pub fn points_satisfy_literals()
    ensures { PointsSatisfyLiterals }
{}

/// Kept rows over integers stand as rows of that sort, as they are kept.
pub fn whole_rows_stand()
    ensures { WholeRowsStand }
{}
