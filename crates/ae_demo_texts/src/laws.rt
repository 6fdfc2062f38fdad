//! A law of the demo's texts. This function does nothing: its contract is a theorem.
ghost use Rattle.std.specs.Prelude.{ℕ, ◌<◌, ◌^◌};
ghost use Rattle.ae_demo_texts.specs.Problems.{HasProblem};

/// The demo's text of any number of goals is tokenized, parsed and typed, within the limits, and its problem has goals alone,
/// without quantifier and without inequality.
pub fn demo_texts_have_problems()
    ensures { (n : ℕ) → n < 2 ^ 64 → HasProblem n }
{}
