//! Laws.
ghost use Rattle.ae_matching.specs.Laws as laws;
ghost use Rattle.ae_matching.specs.SortCovers as sort_covers;
ghost use Rattle.ae_matching.specs.Stable as stable;
ghost use Rattle.ae_matching.specs.Triggers as triggers;

/// The sorts of a match are found.
pub fn sorts_are_found()
    ensures { laws.SortsAreFound }
{}

/// The generator offers bindings for each match.
pub fn generator_is_complete()
    ensures { laws.GeneratorIsComplete }
{}

/// The test says of names what the definition of a match says of their terms.
pub fn test_is_exact()
    ensures { laws.TestIsExact }
{}

/// The test stays true where names are put for others that are the same.
pub fn test_is_stable()
    ensures { stable.TestIsStable }
{}

/// What the generator offers binds each variable of the term.
pub fn generator_covers()
    ensures { stable.GeneratorCovers }
{}

/// Each match of a trigger is found, up to names that are the same.
pub fn each_match_is_found()
    ensures { triggers.EachMatchIsFound }
{}

/// Matching sorts binds each type variable of a pattern's sorts.
pub fn sort_matching_covers()
    ensures { sort_covers.SortMatchingCovers }
{}
