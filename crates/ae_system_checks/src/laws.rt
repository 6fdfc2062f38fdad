//! Laws of examples. These functions do nothing: each one's contract is a theorem.
ghost use Rattle.ae_core.specs.Signatures.{IsLawful};
ghost use Rattle.ae_evaluation.specs.Consequences.{MakesTrue, NamesArePlain};
ghost use Rattle.ae_journal.specs.Systems.{IsCompleted};
ghost use Rattle.ae_decide.specs.Clauses.{FailsAlone};
ghost use Rattle.ae_decide.specs.Clauses.Part.{terms, leaves, computing, records, congruence, rules, reduction, overlaps, joins};
ghost use Rattle.ae_system_checks.specs.Examples.{signature, overlapping, second_leaf, equated, equation};
ghost use Rattle.ae_system_checks.specs.Examples.{named_twice, crossed, opaque_numeral, other_field, incongruent, single_left, reducible, apart, without_rule};
ghost use Rattle.ae_system_checks.specs.Tests.{HasTest, ClauseHasTest, SaturatedHasTest, OverlapsHaveTest, JoinsHaveTest};
ghost use Rattle.ae_system_checks.specs.Laws.{LeafOfOther, EquationsFollowPlainly, EquationsFollow, StateAnswers, TwoEquationsAnswer, NoLiteralsAreRefused};
ghost use Rattle.ae_system_checks.specs.Laws.{OneEquationAnswers, QuantifiedAnswers, TriggerMatches, NoInstanceIsRefused};

/// For each clause there is a system that it alone refuses.
pub fn each_clause_refuses()
    ensures terms { FailsAlone signature named_twice terms }
    ensures leaves { FailsAlone signature crossed leaves }
    ensures computing { FailsAlone signature opaque_numeral computing }
    ensures records { FailsAlone signature other_field records }
    ensures congruence { FailsAlone signature incongruent congruence }
    ensures rules { FailsAlone signature single_left rules }
    ensures reduction { FailsAlone signature reducible reduction }
    ensures overlaps { FailsAlone signature apart overlaps }
    ensures joins { FailsAlone signature without_rule joins }
{}

/// A rule of a completed system may overlap itself and another.
pub fn rules_may_overlap()
    ensures { IsCompleted signature overlapping }
{}

/// In a completed system a leaf may be represented by a smaller name.
pub fn a_smaller_name_may_represent_a_leaf()
    ensures completed { IsCompleted signature second_leaf }
    ensures leaf { LeafOfOther }
{}

/// The laws on names with equal values apply where no literal but `b = a` is stated.
pub fn laws_on_equal_names_apply()
    ensures lawful { IsLawful signature }
    ensures completed { IsCompleted signature equated }
    ensures makes_true { MakesTrue signature equated equation }
    ensures plain { NamesArePlain signature equated }
    ensures follow_plainly { EquationsFollowPlainly }
    ensures follow { EquationsFollow }
{}

/// Whether a system is completed can be tested, clause by clause.
pub fn completed_can_be_tested()
    ensures terms { ClauseHasTest terms }
    ensures leaves { ClauseHasTest leaves }
    ensures computing { ClauseHasTest computing }
    ensures records { ClauseHasTest records }
    ensures congruence { ClauseHasTest congruence }
    ensures rules { ClauseHasTest rules }
    ensures reduction { ClauseHasTest reduction }
    ensures overlaps { OverlapsHaveTest }
    ensures joins { JoinsHaveTest }
    ensures all { HasTest IsCompleted }
{}

/// Whether a state is saturated can be tested, where no literal that stands is quantified and no axiom before the goal has
/// type variables.
pub fn saturated_can_be_tested()
    ensures { SaturatedHasTest }
{}

/// A saturated state is an answer; a state in which the hypotheses and the goal's negation don't stand is none.
pub fn saturated_states_answer()
    ensures accepted { StateAnswers }
    ensures two_equations { TwoEquationsAnswer }
    ensures no_literals { NoLiteralsAreRefused }
{}

/// `a = b` doesn't give `a = c`: a saturated state says so.
pub fn one_equation_answers()
    ensures { OneEquationAnswers }
{}

/// A saturated state with a quantified literal whose trigger matches: with the instance it is an answer, without it none.
pub fn matched_states_answer()
    ensures accepted { QuantifiedAnswers }
    ensures matches { TriggerMatches }
    ensures no_instance { NoInstanceIsRefused }
{}
