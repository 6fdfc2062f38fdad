//! Laws of the definitions.
ghost use Rattle.std.specs.Prelude.{ℕ, List};
ghost use Rattle.ae_rules.specs.Clauses.{Clause};
ghost use Rattle.ae_core.specs.declared.formulas.Formula.{Formula};
ghost use Rattle.ae_core.specs.declared.problems.Problem.{Problem};
ghost use Rattle.ae_explain.specs.declared.trail.Assigned.{Assigned};
ghost use Rattle.ae_journal.specs.declared.lines.Line.{Line};
ghost use Rattle.ae_sat.specs.Laws.{SurelyIsTrue, OpenMayBeDecided, LearntIsNew, TrailMayStand, LearningIsLegal, GoingBackIsLegal, DecidingKeeps, GoingBackKeepsLayers, NewClauseRests, LearntRests};
ghost use Rattle.ae_journal.specs.Standing.{IsGiven, Setting};

/// What the solver's notes rest on, for the trail, the clauses and a journal.
pub fn notes_are_legal()
    // What surely stands is in a settled trail.
    ensures surely { (setting : Setting) (js : List Line) (t : List Assigned) (clauses : List Clause) → SurelyIsTrue setting js t clauses }
    // A literal without a value of a possible clause without a true literal may be decided.
    ensures decide { (setting : Setting) (js : List Line) (t : List Assigned) (clauses : List Clause) → OpenMayBeDecided setting js t clauses }
    // No given clause is a part of what is learnt.
    ensures learn { (setting : Setting) (js : List Line) (t : List Assigned) (clauses : List Clause) → LearntIsNew setting js t clauses }
    // Each literal of the trail may stand.
    ensures may { (setting : Setting) (js : List Line) (t : List Assigned) (clauses : List Clause) → TrailMayStand setting js t clauses }
    // What is learnt is a legal line, and so is going back after it.
    ensures learning { (setting : Setting) (js : List Line) (t : List Assigned) (clauses : List Clause) → LearningIsLegal setting js t clauses }
    ensures back { (setting : Setting) (js : List Line) (t : List Assigned) (clauses : List Clause) → GoingBackIsLegal setting js t clauses }
    // A decision keeps what makes the next lines legal.
    ensures deciding { (setting : Setting) (js : List Line) (t : List Assigned) (clauses : List Clause) → DecidingKeeps setting js t clauses }
{}

/// What going back leaves of the clauses that fire at no level below the present one.
pub fn levels_rest()
    ensures layers { (setting : Setting) (js : List Line) (t cut : List Assigned) (level : ℕ) → GoingBackKeepsLayers t cut level (IsGiven setting js) }
    ensures new { (t cut : List Assigned) (level : ℕ) → NewClauseRests t cut level }
    ensures learnt { (t cut : List Assigned) (level : ℕ) → LearntRests t cut level }
{}
