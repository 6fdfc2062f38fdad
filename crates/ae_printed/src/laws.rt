//! Laws of parts that are read back. These functions do nothing: each one's contract is a theorem.

ghost use Rattle.std.specs.Prelude.{◌≡◌, ℕ, true, List, slice_get, Some};
ghost use Rattle.ae_core.specs.Signatures.{IsLawful};
ghost use Rattle.ae_core.specs.declared.formulas.Formula.{Formula};
ghost use Rattle.ae_core.specs.declared.problems.Item.TheVariants.{Goal};
ghost use Rattle.ae_core.specs.declared.problems.Problem.{Problem};
ghost use Rattle.ae_journal.specs.Systems.{IsCompleted};
ghost use Rattle.ae_journal.specs.declared.systems.Saturated.{Saturated};
ghost use Rattle.ae_legal_states.specs.Writable as states;
ghost use Rattle.ae_legal_texts.specs.Writable as texts;
ghost use Rattle.ae_parts.specs.Parts.{part_text};
ghost use Rattle.ae_parts.specs.declared.parts.Part.{Part};
ghost use Rattle.ae_parts.specs.declared.parts.Part.TheVariants as part;
ghost use Rattle.ae_prooftext.specs.declared.proofs.ProofText.{ProofText};
ghost use Rattle.ae_rules.specs.Derivations.{Derives, clause_ok};
ghost use Rattle.ae_verdicts.specs.Verdicts.{IsVerdict, ListsItsAxioms};
ghost use Rattle.ae_verdicts.specs.declared.lines.Verdict.{Verdict};
ghost use Rattle.ae_printed.specs.ReadBack.{IsPassed, IsReadBack, IsRight, proof_in};

/// A proof that derives its goal, lists its axioms and keeps within the limits is read back from the part that it is written in.
pub fn proofs_are_read_back()
    ensures { (p : Problem) (k : ℕ) (name : List ℕ) (vars : ℕ) (body : Formula) (t : ProofText) → IsLawful p.signature → slice_get p.items k ≡ Some (Goal name vars body)
        → Derives p k t.proof → ListsItsAxioms t → texts.IsWithinLimits t → IsReadBack p k (part_text p.signature name (part.Valid t)) }
{}

/// A state of a completed system, whose literals are closed and well sorted and which keeps within the limits, is read back from
/// the part that it is written in.
pub fn states_are_read_back()
    ensures { (p : Problem) (k : ℕ) (name : List ℕ) (vars : ℕ) (body : Formula) (s : Saturated) → IsLawful p.signature → slice_get p.items k ≡ Some (Goal name vars body)
        → IsCompleted p.signature s.system → clause_ok p.signature s.literals ≡ true → states.IsWithinLimits p.signature s
        → IsReadBack p k (part_text p.signature name (part.Unknown s)) }
{}

/// Nothing is refused of a part that is right: a proof that derives its goal and lists its axioms is accepted, unless a number
/// leaves the limits.
pub fn right_parts_pass()
    ensures { (p : Problem) (k : ℕ) (q : Part) (v : Verdict) → IsRight p k q → IsVerdict p k (proof_in q) v → IsPassed q v }
{}
