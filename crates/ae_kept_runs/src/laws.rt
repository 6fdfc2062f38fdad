//! Laws of what runs keep. These functions do nothing: each one's contract is a theorem.
ghost use Rattle.ae_kept_runs.specs.Runs.{LearntLinesComeOver, RunsKeepRounds};

/// Where the solver goes on, no clause goes, clauses and lines come over the formulas that are there and their parts, and no instance is noted, a search is one
/// between two rounds still.
pub fn runs_keep_rounds()
    ensures { RunsKeepRounds }
{}

/// Where it is learnt from a block of literals of the trail, whose lines are between terms that are built of the names, the lines come so.
pub fn learnt_lines_come_over()
    ensures { LearntLinesComeOver }
{}
