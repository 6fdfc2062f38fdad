//! Laws of verdicts. These functions do nothing: their contracts are theorems.
ghost use Rattle.std.specs.Prelude.{◌≡◌, ◌⊎◌, ℕ, List, Option, Some};
ghost use Rattle.ae_core.specs.declared.problems.Problem.{Problem};
ghost use Rattle.ae_core.specs.declared.proofs.Proof.{Proof};
ghost use Rattle.ae_prooftext.specs.declared.proofs.ProofText.{ProofText};
ghost use Rattle.ae_rules.specs.Derivations.{Derives};
ghost use Rattle.ae_trim.specs.Axioms.{AreAxioms};
ghost use Rattle.ae_trim.specs.Trimmed.{IsTrimmed};
ghost use Rattle.ae_verdicts.specs.Verdicts.{IsVerdict, ListsItsAxioms, verdict_line};
ghost use Rattle.ae_verdicts.specs.declared.lines.Verdict.{Verdict};
ghost use Rattle.ae_verdicts.specs.declared.lines.Verdict.TheVariants.{Accepted, Number};

/// A part has one verdict. So each comes exactly where its definition says.
pub fn one_verdict()
    ensures { (p : Problem) (g : ℕ) (part : Option ProofText) (v w : Verdict) → IsVerdict p g part v → IsVerdict p g part w → v ≡ w }
{}

/// Where the line of a part is that of `accepted`, the part is a proof that derives the goal.
pub fn accepted_proofs_derive()
    ensures { (p : Problem) (g : ℕ) (part : Option ProofText) (name : List ℕ) (v : Verdict) → IsVerdict p g part v → verdict_line name v ≡ verdict_line name Accepted → (t : ProofText) × (part ≡ Some t) × Derives p g t.proof }
{}

/// A proof that derives its goal and lists its axioms is accepted, unless a number leaves the limits.
pub fn derivations_are_accepted()
    ensures { (p : Problem) (g : ℕ) (t : ProofText) (v : Verdict) → Derives p g t.proof → ListsItsAxioms t → IsVerdict p g (Some t) v → (v ≡ Accepted) ⊎ (v ≡ Number) }
{}

/// So is a derivation that was cut down to the lines that it uses, with the axioms of what is left.
pub fn trimmed_derivations_are_accepted()
    ensures { (p : Problem) (g : ℕ) (whole trimmed : Proof) (places : List ℕ) (v : Verdict) → Derives p g whole → IsTrimmed whole trimmed → AreAxioms trimmed places → IsVerdict p g (Some (record { axioms = Some places; proof = trimmed })) v → (v ≡ Accepted) ⊎ (v ≡ Number) }
{}
