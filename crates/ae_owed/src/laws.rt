//! Laws. These functions do nothing: their contracts are theorems.
ghost use Rattle.ae_owed.specs.Laws.{FoundOnesMatch, MatchesMayBeNoted, MatchesGrow, MatchesAreRecorded, RecordsGrow, AgedOnesHaveGenerations, AgesRise, GenerationsRiseTo, NoneIsOwed};

/// A match among the names of a store is one by the equations that may stand, where names that are the same are equal by these
/// and the store gives no name a smaller generation than the journal.
pub fn found_ones_match()
    ensures { FoundOnesMatch }
{}

/// A new line of a match at a number below the bound may be noted.
pub fn matches_may_be_noted()
    ensures { MatchesMayBeNoted }
{}

/// A match stays one after more lines but `Back` lines.
pub fn matches_grow()
    ensures { MatchesGrow }
{}

/// An instance whose lines were noted has each number at which it is a match by now, also where that is less than at its line.
pub fn matches_are_recorded()
    ensures { MatchesAreRecorded }
{}

/// An instance keeps its number after more lines.
pub fn records_grow()
    ensures { RecordsGrow }
{}

/// A journal gives a formula no greater generation than its instances do.
pub fn aged_ones_have_generations()
    ensures { AgedOnesHaveGenerations }
{}

/// What has a generation by the instances has each greater one.
pub fn ages_rise()
    ensures { AgesRise }
{}

/// What has a generation by a journal has each greater one.
pub fn generations_rise_to()
    ensures { GenerationsRiseTo }
{}

/// Where none is owed, each match of a state below the bound is the same as one that is taken, whose instance stands.
pub fn none_is_owed()
    ensures { NoneIsOwed }
{}
