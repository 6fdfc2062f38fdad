//! Laws of the texts of states. These functions do nothing: each one's contract is a theorem.
ghost use Rattle.std.specs.Prelude.{◌≡◌, true, []};
ghost use Rattle.ae_codes.specs.Codes.{got};
ghost use Rattle.ae_core.specs.Signatures.{IsLawful};
ghost use Rattle.ae_core.specs.declared.problems.AcSymbol.{AcSymbol};
ghost use Rattle.ae_core.specs.declared.problems.Signature.{Signature};
ghost use Rattle.ae_journal.specs.Systems.{IsCompleted};
ghost use Rattle.ae_journal.specs.declared.systems.Saturated.{Saturated};
ghost use Rattle.ae_rules.specs.Derivations.{clause_ok};
ghost use Rattle.ae_rules.specs.Lines.{IsAc};
ghost use Rattle.ae_stategrammar.specs.Sides.{symbol};
ghost use Rattle.ae_stategrammar.specs.States.{state};
ghost use Rattle.ae_stategrammar.specs.StateTexts.{state_text};
ghost use Rattle.ae_legal_states.specs.Writable.{HasSorts, IsWithinLimits};

/// Each associative and commutative symbol of a lawful signature has a text, with closed sorts, one for each of its type variables; and so have
/// the products of integers and of real numbers.
#[tactic(auto, using(crate::proofs::Symbols::symbols_fit))]
pub fn symbols_have_texts()
    ensures ac { (sig : Signature) → IsLawful sig → (s : AcSymbol) → IsAc sig s.head → HasSorts sig s → (symbol sig).Fits s }
{}

/// Each state of a completed system over a lawful signature has a text, where its literals are closed and well sorted, and what it shows is
/// within the limits. What is written of it is read back.
#[tactic(auto, using(crate::proofs::Systems::states_fit, crate::proofs::Systems::states_read_back))]
pub fn states_have_texts()
    ensures completed { (sig : Signature) → IsLawful sig → (s : Saturated) → IsCompleted sig s.system → clause_ok sig s.literals ≡ true → IsWithinLimits sig s → (state sig).Fits s }
    ensures read_back { (sig : Signature) → IsLawful sig → (s : Saturated) → IsCompleted sig s.system → clause_ok sig s.literals ≡ true → IsWithinLimits sig s → (state sig).read (state_text sig s) ≡ got s [] }
{}
