//! Laws of the definitions of states and journals.
ghost use Rattle.ae_journal.specs.Laws.{OneRepresentative, OneValue, LeafRepresentative, OneRepresentativeNow, RepresentsItself, OneLeaf, LeastGenerations, GenerationsRise, GenerationsFall};
ghost use Rattle.ae_journal.specs.Laws.{FrontsAreLegal, BackRestores, BackAfterLearn, NothingIsLost, MayStandGrows, SurelyStandsGrows, LiteralsAreFormulas, RowsAreOfNames, NoSecondRule};
ghost use Rattle.ae_journal.specs.Laws.{NoSecondPair, NoPairWithItself, NoSecondDrop, NothingKnownIsLearnt, NothingSureIsDecided, NoSecondInstance, NoSecondBack, BackUndoes, NoInstanceAtBound};
ghost use Rattle.ae_journal.specs.Laws.{NoNameIsDropped, SomePair, SomeDrop};

/// A value has one representative within a sort, and no smaller name has the value.
pub fn one_representative()
    ensures { OneRepresentative }
{}

/// In a completed system a term has one value.
pub fn one_value()
    ensures { OneValue }
{}

/// The representative of a leaf has the leaf as its value, and isn't above it.
pub fn leaf_representative()
    ensures { LeafRepresentative }
{}

/// At each line of a journal a name has at most one representative.
pub fn one_representative_now()
    ensures { OneRepresentativeNow }
{}

/// At each line of a journal a representative represents itself.
pub fn represents_itself()
    ensures { RepresentsItself }
{}

/// Two terms have one leaf only where they are one term.
pub fn one_leaf()
    ensures { OneLeaf }
{}

/// Generations of a state are the least numbers that follow the rules.
pub fn least_generations()
    ensures { LeastGenerations }
{}

/// What has a generation of at most `n` has one of at most `n + 1`.
pub fn generations_rise()
    ensures { GenerationsRise }
{}

/// No formula of a journal has a greater generation after more lines.
pub fn generations_fall()
    ensures { GenerationsFall }
{}

/// The front of legal lines is legal.
pub fn fronts_are_legal()
    ensures { FrontsAreLegal }
{}

/// `Back` gives the lines that stood as the first undone decision was taken.
pub fn back_restores()
    ensures { BackRestores }
{}

/// After a `Learn` line the solver may go back.
pub fn back_after_learn()
    ensures { BackAfterLearn }
{}

/// Given clauses, formulas, names and possible clauses stay, also after a `Back` line.
pub fn nothing_is_lost()
    ensures { NothingIsLost }
{}

/// What may stand still may after more clauses and decisions.
pub fn may_stand_grows()
    ensures { MayStandGrows }
{}

/// What surely stands still does after more clauses and decisions.
pub fn surely_stands_grows()
    ensures { SurelyStandsGrows }
{}

/// In a legal journal what may stand says something of a formula of the journal.
pub fn literals_are_formulas()
    ensures { LiteralsAreFormulas }
{}

/// In a legal journal a row is of two names' values, is that of a `Combine` line, or has two names as its sides.
pub fn rows_are_of_names()
    ensures { RowsAreOfNames }
{}

/// A rule that stands isn't oriented again.
pub fn no_second_rule()
    ensures { NoSecondRule }
{}

/// Two rules that were paired, and of which neither was dropped since, aren't paired again.
pub fn no_second_pair()
    ensures { NoSecondPair }
{}

/// A rule isn't paired with itself.
pub fn no_pair_with_itself()
    ensures { NoPairWithItself }
{}

/// A rule that was dropped isn't dropped again.
pub fn no_second_drop()
    ensures { NoSecondDrop }
{}

/// No clause is learnt of which a given one is a part.
pub fn nothing_known_is_learnt()
    ensures { NothingKnownIsLearnt }
{}

/// No literal is decided that surely stands, or whose opposite does.
pub fn nothing_sure_is_decided()
    ensures { NothingSureIsDecided }
{}

/// No instance is noted twice.
pub fn no_second_instance()
    ensures { NoSecondInstance }
{}

/// `Back` doesn't come twice without a clause between.
pub fn no_second_back()
    ensures { NoSecondBack }
{}

/// `Back` comes only where it undoes a decision.
pub fn back_undoes()
    ensures { BackUndoes }
{}

/// An instance is noted only at a number below the bound.
pub fn no_instance_at_bound()
    ensures { NoInstanceAtBound }
{}

/// No solved name is dropped.
pub fn no_name_is_dropped()
    ensures { NoNameIsDropped }
{}

/// Two rules with a common name may be paired.
pub fn some_pair()
    ensures { SomePair }
{}

/// A rule whose left side another rule reduces may be dropped.
pub fn some_drop()
    ensures { SomeDrop }
{}
