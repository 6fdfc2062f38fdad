//! Laws of what is held. These functions do nothing: each one's contract is a theorem.
ghost use Rattle.ae_state.specs.Laws.{NamesAreAlikeThemselves, NamesAreAlikeTurned, NamesAreAlikeThrough};
ghost use Rattle.ae_state.specs.Laws.{AlikeNamesHaveOneSort, LargerStoresFit, SilentLinesKeepStep};

/// To be the same is an equivalence of names, and names that are the same are of one sort.
pub fn names_that_are_the_same()
    ensures reflexive { NamesAreAlikeThemselves }
    ensures symmetric { NamesAreAlikeTurned }
    ensures transitive { NamesAreAlikeThrough }
    ensures sorted { AlikeNamesHaveOneSort }
{}

/// What fits a store fits one with more names, and a line that is none of a theory keeps lines in step.
pub fn what_changes_nothing()
    ensures fits_more { LargerStoresFit }
    ensures silent { SilentLinesKeepStep }
{}
