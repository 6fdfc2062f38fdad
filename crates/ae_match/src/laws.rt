//! Laws. These functions do nothing: their contracts are theorems.
ghost use Rattle.std.specs.Prelude.{List};
ghost use Rattle.ae_core.specs.declared.problems.Signature.{Signature};
ghost use Rattle.ae_store.specs.declared.nodes.Node.{Node};
ghost use Rattle.ae_store.specs.Stores.{IsStore};
ghost use Rattle.ae_matching.specs.Laws.{IsSoundStore};
ghost use Rattle.ae_match.specs.Seen.{seen};
ghost use Rattle.ae_match.specs.Matches.{TestedAreEqual, MatchesAreFound};

/// What matching sees of a store is what the laws of matching ask for: each node says what its term is.
pub fn stores_are_sound()
    ensures { (sig : Signature) (ns : List Node) → IsStore sig ns → IsSoundStore (seen sig ns) }
{}

/// For names of a store the test of a trigger's terms is true exactly where they equal known terms, as the definition
/// of a match asks for it.
pub fn tested_are_equal()
    ensures { TestedAreEqual }
{}

/// Each match among the terms of a store's names is found, where each variable occurs in the trigger.
pub fn matches_are_found()
    ensures { MatchesAreFound }
{}
