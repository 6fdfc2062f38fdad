//! Laws of lines in step with rules. These functions do nothing: each one's contract is a theorem.
ghost use Rattle.ae_rule_lines.specs.Laws.{NothingIsInStep, OtherLinesKeepStep, NamesKeepStep, RulesKeepStep, DropsKeepStep, PairsKeepStep};
ghost use Rattle.ae_rule_lines.specs.Laws.{NewRightsKeepStep, NewSidesKeepStep, ForgettingKeepsStep, NameEquationsKeepStep, DescentsAreOfLines};
ghost use Rattle.ae_rule_lines.specs.Laws.{RuleMayCome, ReducibleMayBeDropped, StaleMayBeDropped, RulesMayBePaired};

/// No lines are in step with no rules and no equations.
pub fn nothing_is_in_step()
    ensures { NothingIsInStep }
{}

/// Lines that leave rules and pairs as they are, and more terms, keep the lines in step.
pub fn other_lines_keep_step()
    ensures lines { OtherLinesKeepStep }
    ensures names { NamesKeepStep }
{}

/// So does a rule that is noted and entered.
pub fn rules_keep_step()
    ensures { RulesKeepStep }
{}

/// So does a rule that is dropped and taken out, where its equation waits then.
pub fn drops_keep_step()
    ensures { DropsKeepStep }
{}

/// So do two rules that are paired, where the results of Deduce wait then.
pub fn pairs_keep_step()
    ensures { PairsKeepStep }
{}

/// So do right sides that descend from those of before.
pub fn new_rights_keep_step()
    ensures { NewRightsKeepStep }
{}

/// So do equations whose sides descend from those of before, some gone, and the equation of a name with its two arguments.
pub fn equations_keep_step()
    ensures sides { NewSidesKeepStep }
    ensures fewer { ForgettingKeepsStep }
    ensures names { NameEquationsKeepStep }
{}

/// What descends by the representatives and rules of now does so by the lines.
pub fn descents_are_of_lines()
    ensures { DescentsAreOfLines }
{}

/// A rule from the larger to the smaller side of an equation that waits may be noted.
pub fn rule_may_come()
    ensures { RuleMayCome }
{}

/// A rule may be dropped where another reduces its left side, or a name in it is no representative.
pub fn rules_may_be_dropped()
    ensures reducible { ReducibleMayBeDropped }
    ensures stale { StaleMayBeDropped }
{}

/// Two rules of one symbol with a common name may be paired where they aren't yet.
pub fn rules_may_be_paired()
    ensures { RulesMayBePaired }
{}
