//! A law of the clauses. This function does nothing: its contract is a theorem.
ghost use Rattle.ae_decide.specs.Clauses.{NineClauses};

/// A system is completed exactly where each of the nine clauses holds of it.
pub fn completed_by_nine_clauses()
    ensures { NineClauses }
{}
