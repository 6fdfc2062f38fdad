//! Laws of trimmed proofs.
ghost use Rattle.std.specs.Prelude.{ℕ, ◌<◌, length};
ghost use Rattle.ae_core.specs.declared.problems.Problem.{Problem};
ghost use Rattle.ae_core.specs.declared.proofs.Proof.{Proof};
ghost use Rattle.ae_rules.specs.Derivations.{Derives};
ghost use Rattle.ae_trim.specs.Used.{HintEarlier};

/// In a derivation hints name earlier lines, and there is a line: it can be trimmed.
pub fn derivations_can_be_trimmed()
    ensures { (p : Problem) (g : ℕ) (proof : Proof) → Derives p g proof → HintEarlier proof.lines × (0 < length proof.lines) }
{}
