//! Laws of examples.
ghost use Rattle.ae_journal_checks.specs.Laws.{OneRuleIsLegal, RepeatedRuleIsRefused, FallingRuleIsRefused, NothingIsCounted, FourLinesAreLegal, OneDecisionIsLegal, OneInstanceMayCome, OneLearntClauseIsLegal, GoingBackIsLegal, EveryKindIsLegal};
ghost use Rattle.ae_journal_checks.specs.Laws.{StepsAnswer, OtherLimitIsRefused, RepetitionIsRefused, OmissionIsRefused, WidthAnswers, NoWidthIsRefused, NamelessCombinationIsRefused, OwnFormsAreRefused, EmptyProofIsRefused};
ghost use Rattle.ae_journal_checks.specs.Laws.{NoLargerLeaf, NoSumWithItself, NoRecordIsSolved, NoSecondCombination};

/// A journal of one rule is legal, with one counted line.
pub fn one_rule_is_legal()
    ensures { OneRuleIsLegal }
{}

/// With its line repeated it is not.
pub fn repeated_rule_is_refused()
    ensures { RepeatedRuleIsRefused }
{}

/// A rule with a multiset that isn't written rising is refused.
pub fn falling_rule_is_refused()
    ensures { FallingRuleIsRefused }
{}

/// Without its line nothing is counted.
pub fn nothing_is_counted()
    ensures { NothingIsCounted }
{}

/// A journal of two rules, their pair and a name with a new value is legal, with four counted lines.
pub fn four_lines_are_legal()
    ensures { FourLinesAreLegal }
{}

/// A journal of one decision is legal.
pub fn one_decision_is_legal()
    ensures { OneDecisionIsLegal }
{}

/// An instance may come where the bound on generations allows one.
pub fn one_instance_may_come()
    ensures { OneInstanceMayCome }
{}

/// A journal of one learnt clause is legal.
pub fn one_learnt_clause_is_legal()
    ensures { OneLearntClauseIsLegal }
{}

/// A decision, an instance and going back behind the decision are legal lines.
pub fn going_back_is_legal()
    ensures { GoingBackIsLegal }
{}

/// A journal with a line of every kind is legal.
pub fn every_kind_is_legal()
    ensures { EveryKindIsLegal }
{}

/// A journal is an answer with the limit that it reaches, and with no other: not with its line left out. A journal that isn't legal is none.
pub fn journals_answer()
    ensures accepted { StepsAnswer }
    ensures other_limit { OtherLimitIsRefused }
    ensures repetition { RepetitionIsRefused }
    ensures omission { OmissionIsRefused }
{}

/// A sum of the operands of a named sum is an answer where it leaves the limits, and only there. Without names no combination is one, and where nothing states a form no form of one's own makes one.
pub fn widths_answer()
    ensures accepted { WidthAnswers }
    ensures within { NoWidthIsRefused }
    ensures nameless { NamelessCombinationIsRefused }
    ensures own_forms { OwnFormsAreRefused }
{}

/// A proof without lines is no answer.
pub fn empty_proofs_do_not_answer()
    ensures { EmptyProofIsRefused }
{}

/// What a name doesn't get by an `Orient` line.
pub fn values_of_names_are_refused()
    ensures larger_leaf { NoLargerLeaf }
    ensures itself_in_sum { NoSumWithItself }
    ensures records { NoRecordIsSolved }
{}

/// A combination of rows isn't noted again after itself.
pub fn second_combination_is_refused()
    ensures { NoSecondCombination }
{}
