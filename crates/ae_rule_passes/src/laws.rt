//! Laws of rules that are dropped together. These functions do nothing: each one's contract is a theorem.
ghost use Rattle.ae_rule_passes.specs.Laws.{PassesKeepStep, StaleRulesMayGo, ReducibleRulesMayGo};

/// The lines stay in step where several rules are dropped and their equations wait then.
pub fn passes_keep_step()
    ensures { PassesKeepStep }
{}

/// Rules may be dropped together where each has a name in its left side that is no representative, or where others reduce their left sides.
pub fn rules_may_go()
    ensures stale { StaleRulesMayGo }
    ensures reducible { ReducibleRulesMayGo }
{}
