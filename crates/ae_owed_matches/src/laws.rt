//! Laws. These functions do nothing: their contracts are theorems.
ghost use Rattle.ae_owed_matches.specs.Laws.{AnyMatchIsFound, FoundOnesAreMatches, LiteralPatternsAreClosed, NoneOwedAt, NothingBetween, PassesLeaveNone, PatternsAreClosed};

/// What is found of an owner's patterns is a match of the owner.
pub fn found_ones_are_matches()
    ensures { FoundOnesAreMatches }
{}

/// Where none of an owner's matches at a number is owed, each is the same as an instance that was noted.
pub fn none_owed_at()
    ensures { NoneOwedAt }
{}

/// Sorts and names are a match of one of an owner's patterns exactly where they are one of the owner.
pub fn any_match_is_found()
    ensures { AnyMatchIsFound }
{}

/// The patterns of a literal meet what the search for matches asks of constants.
pub fn literal_patterns_are_closed()
    ensures { LiteralPatternsAreClosed }
{}

/// So do the patterns of each owner, in a lawful problem.
pub fn patterns_are_closed()
    ensures { PatternsAreClosed }
{}

/// After a pass over all numbers below the bound that has nothing to do, none is owed.
pub fn passes_leave_none()
    ensures { PassesLeaveNone }
{}

/// At a number that adds no name to those of a smaller one there are no more matches.
pub fn nothing_between()
    ensures { NothingBetween }
{}
