//! Laws. These functions do nothing: their contracts are theorems.
ghost use Rattle.ae_ages.specs.Laws.{BringingIsLate, BringingJustifies, BroughtOnesAreHad, HadOnesCover, WhatIsHadStays};

/// What is had at a generation stays so where more is brought.
pub fn what_is_had_stays()
    ensures { WhatIsHadStays }
{}

/// What was brought is had.
pub fn brought_ones_are_had()
    ensures { BroughtOnesAreHad }
{}

/// Where what hypotheses, the goal, instances and opened formulas bring is had, the terms of each formula of a generation are known at it.
pub fn had_ones_cover()
    ensures { HadOnesCover }
{}

/// Where a formula is brought at a generation that it has by a journal, each known term and each entry is brought by the journal's lines.
pub fn bringing_justifies()
    ensures { BringingJustifies }
{}

/// What is brought at a generation leaves what is known at smaller ones.
pub fn bringing_is_late()
    ensures { BringingIsLate }
{}
