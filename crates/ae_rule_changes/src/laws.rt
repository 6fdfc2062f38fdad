//! Laws of changed rules. These functions do nothing: each one's contract is a theorem.
ghost use Rattle.ae_rule_changes.specs.Laws.{StaleRulesAreDropped, ReducibleRulesAreDropped, OrientedRulesAreEntered, ComposedRulesHaveNewRights};
ghost use Rattle.ae_rule_changes.specs.Laws.{NotedPairsArePaired, DeducedPairsHaveNewSides, KeptRulesDescend};

/// The lines that drop the rules which `release` or `collapse` takes out may come, and are in step with the rules that stay.
pub fn rules_taken_out_are_dropped()
    ensures stale { StaleRulesAreDropped }
    ensures reducible { ReducibleRulesAreDropped }
{}

/// A rule that `orient` enters has a number that none is paired with, and a left side that no other rule has.
pub fn oriented_rules_are_entered()
    ensures { OrientedRulesAreEntered }
{}

/// A rule that `compose` changes has a new right side.
pub fn composed_rules_have_new_rights()
    ensures { ComposedRulesHaveNewRights }
{}

/// A number put before the partners of another is paired with it, and the equation of an overlap comes of the results of Deduce.
pub fn overlaps_are_paired()
    ensures numbers { NotedPairsArePaired }
    ensures sides { DeducedPairsHaveNewSides }
{}

/// What descends by the kept rules does so without their justifications.
pub fn kept_rules_descend()
    ensures { KeptRulesDescend }
{}
