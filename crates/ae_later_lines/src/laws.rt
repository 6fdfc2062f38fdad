//! Laws. These functions do nothing: their contracts are theorems.
ghost use Rattle.ae_later_lines.specs.Laws.{JustifiedStay, JustifiedAgesStay, RecordsStay};

/// What a store knows at a number is brought at that number after more lines.
pub fn justified_stay()
    ensures { JustifiedStay }
{}

/// So are the generations of quantified formulas.
pub fn justified_ages_stay()
    ensures { JustifiedAgesStay }
{}

/// Where no line of an instance comes, the instances are still those of the journal's lines.
pub fn records_stay()
    ensures { RecordsStay }
{}
