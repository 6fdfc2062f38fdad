//! Laws of the number of orders that are open. This function does nothing: its contract is a theorem.
ghost use Rattle.std.specs.Prelude.{◌<◌, ◌≤◌, ◌≡◌, List, [], ◌∷◌, ◌++◌, Some};
ghost use Rattle.ae_block_constants.specs.declared.opened.Opened.{Opened};
ghost use Rattle.ae_block_counts.specs.Counts.{quantifiers_left};
ghost use Rattle.ae_core.specs.declared.problems.Signature.{Signature};
ghost use Rattle.ae_core.specs.declared.terms.Term.{Term};
ghost use Rattle.ae_explain.specs.declared.trail.Assigned.{Assigned};
ghost use Rattle.ae_kept_blocks.specs.Kept.{GoesOnOver};
ghost use Rattle.ae_order_counts.specs.Counts.{IsOrderOpen, orders_left};
ghost use Rattle.ae_order_counts.specs.Trails.{IsOpenTrail};
ghost use Rattle.ae_rules.specs.Clauses.{Clause};
ghost use Rattle.ae_rules.specs.Instances.{trichotomy};
ghost use Rattle.ae_sat.specs.Search.{Brings};
ghost use Rattle.ae_sat.specs.Standing.{IsOneOf};

/// Where the clause of an open order comes to an open trail, and a run without a decision comes to an open trail again, fewer orders are open, and no more quantifiers are left.
pub fn asked_orders_fall()
    ensures asked { (sig : Signature) (s u : Term) (c : Clause) (t t2 : List Assigned) (clauses clauses2 : List Clause) → IsOpenTrail t clauses → IsOrderOpen t s u → trichotomy sig s u ≡ Some c →
        Brings t (clauses ++ c ∷ []) t2 clauses2 → GoesOnOver (clauses ++ c ∷ []) clauses2 → IsOneOf clauses2 c → IsOpenTrail t2 clauses2 → orders_left t2 clauses2 < orders_left t clauses }
    ensures quantifiers { (sig : Signature) (s u : Term) (c : Clause) (opened : List Opened) (clauses clauses2 : List Clause) → trichotomy sig s u ≡ Some c →
        GoesOnOver (clauses ++ c ∷ []) clauses2 → quantifiers_left opened clauses2 ≤ quantifiers_left opened clauses }
{}
