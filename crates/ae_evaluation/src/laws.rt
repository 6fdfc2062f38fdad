//! Laws of evaluation in a completed system. These functions do nothing: each one's contract is a theorem.
ghost use Rattle.std.specs.Prelude.{ℕ};
ghost use Rattle.ae_core.specs.Signatures.{IsLawfulProblem};
ghost use Rattle.ae_evaluation.specs.Consequences.{ConsequencesHaveOneValue, MakesTrue, OneValueIsConsequence, OneValueIsPlainConsequence, RespectsStated, RespectsTested};
ghost use Rattle.ae_evaluation.specs.Enumerations.{ConstructorsDiffer, TermsAreConstructors};
ghost use Rattle.ae_evaluation.specs.Examples.{problem, signature, state, system};
ghost use Rattle.ae_evaluation.specs.Names.{NamesHaveTheirValues};
ghost use Rattle.ae_evaluation.specs.Saturation.{GroundClausesAreTrue, LiteralsAreTrue, NoGroundProof, PuttingKeepsTruth};
ghost use Rattle.ae_evaluation.specs.Shapes.{NumbersAreSums, RecordsAreLists};
ghost use Rattle.ae_journal.specs.Ground.{IsGround};
ghost use Rattle.ae_journal.specs.States.{IsSaturated};
ghost use Rattle.ae_journal.specs.Systems.{IsCompleted};

/// A term of a numeric sort has a sum as its value, in its one spelling, and a term of a record sort a list of one
/// value for each field.
pub fn values_have_shapes()
    ensures numbers { NumbersAreSums }
    ensures records { RecordsAreLists }
{}

/// A named term that is well sorted has its name's value.
pub fn names_evaluate_to_their_values()
    ensures { NamesHaveTheirValues }
{}

/// Where the given equations evaluate alike, every consequence of them within the plain terms evaluates alike.
pub fn evaluation_respects_consequence()
    ensures by_test { RespectsTested }
    ensures by_literals { RespectsStated }
{}

/// Two names whose equation follows, within the plain terms, from equations of names with equal values have one value.
/// Where the system's equations follow from these equations, and all names are plain, two names of one sort have one
/// value exactly where their equation follows so; and where other names stand too, names with one value are equal by
/// consequence.
pub fn names_with_equal_values()
    ensures consequences { ConsequencesHaveOneValue }
    ensures exactly { OneValueIsPlainConsequence }
    ensures any_names { OneValueIsConsequence }
{}

/// In evaluation with constructors, in a saturated state, a term of an enumeration has the value of one of its
/// constructors, and different constructors have different values.
pub fn enumerations_have_constructors_values()
    ensures exhausted { TermsAreConstructors }
    ensures apart { ConstructorsDiffer }
{}

/// Each literal of a saturated state without quantifier and inequality is true in it.
pub fn literals_are_true()
    ensures { LiteralsAreTrue }
{}

/// Terms put for the variables of a block, and constants with the values of these terms, give a formula of the ground
/// fragment one truth.
pub fn substitution_keeps_truth()
    ensures { PuttingKeepsTruth }
{}

/// A saturated state of a goal of the ground fragment makes each clause of a ground proof true, where fresh constants
/// have the values of some terms, and so there is no ground proof of the goal.
pub fn saturated_goals_have_no_ground_proof()
    ensures clauses { GroundClausesAreTrue }
    ensures none { NoGroundProof }
{}

/// The laws apply: the example's system, which has a rule of an AC symbol, a solved real, a record and a product of two
/// unknowns, is completed and makes the state's equations true, and the state is saturated, for a lawful problem whose
/// goal belongs to the ground fragment.
pub fn laws_apply_to_the_example()
    ensures lawful { IsLawfulProblem problem }
    ensures completed { IsCompleted signature system }
    ensures makes_true { MakesTrue signature system state.literals }
    ensures saturated { (bound : ℕ) → IsSaturated problem 1 state bound }
    ensures in_fragment { IsGround problem 1 }
{}
