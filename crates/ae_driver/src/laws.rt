//! Laws of the definitions. These functions do nothing: each one's contract is a theorem.
ghost use Rattle.std.specs.Prelude.{ℕ, List, [], ◌≡◌};
ghost use Rattle.ae_parts.specs.declared.parts.Part.{Part};
ghost use Rattle.ae_core.specs.declared.problems.Problem.{Problem};
ghost use Rattle.ae_cli.specs.Words.{AreRight, Text};
ghost use Rattle.ae_cli.specs.declared.options.Mode.{Mode};
ghost use Rattle.ae_cli.specs.declared.options.Mode.TheVariants.{Prove, Check, Demo};
ghost use Rattle.ae_cli.specs.declared.options.Options.{Options};
ghost use Rattle.ae_driver.specs.Checking.{IsChecked, IsInput, IsRefusedInput};
ghost use Rattle.ae_driver.specs.Problems.{HasNoProblem, IsProblemOf};
ghost use Rattle.ae_driver.specs.Words.{Ask, AskToProve, AskToCheck, AskForDemo};
ghost use Rattle.ae_driver.specs.declared.reasons.Reason.{Reason};

/// A text has at most one problem, and one that has a problem isn't refused.
pub fn one_problem()
    ensures problem { (text : List ℕ) (p q : Problem) → IsProblemOf text p → IsProblemOf text q → p ≡ q }
    ensures none { (text : List ℕ) (p : Problem) (why : Reason) → IsProblemOf text p → ¬ (HasNoProblem text why) }
{}

/// Right words ask for proofs where they say neither `--check` nor `--demo`.
pub fn right_words_ask()
    ensures { (words : List Text) (o : Options) → AreRight words o → o.mode ≡ Prove → AskToProve words }
{}

/// No words ask for proofs.
pub fn no_words_ask()
    ensures { AskToProve [] }
{}

/// Right words ask for a check where they say `--check`.
pub fn right_words_check()
    ensures { (words : List Text) (o : Options) → AreRight words o → o.mode ≡ Check → AskToCheck words }
{}

/// Right words ask for a demo of so many goals where they say `--demo`.
pub fn right_words_demo()
    ensures { (words : List Text) (o : Options) (n : ℕ) → AreRight words o → o.mode ≡ Demo n → AskForDemo n words }
{}

/// Words ask for one thing at most.
pub fn one_task()
    ensures { (words : List Text) (m k : Mode) → Ask m words → Ask k words → m ≡ k }
{}

/// An input that is to be checked has one problem and one list of parts, what is written for it is determined, and it isn't
/// refused.
pub fn one_check()
    ensures input { (input : List ℕ) (p q : Problem) (ps qs : List Part) → IsInput input p ps → IsInput input q qs → (p ≡ q) × (ps ≡ qs) }
    ensures lines { (input a b : List ℕ) → IsChecked input a → IsChecked input b → a ≡ b }
    ensures refusal { (input : List ℕ) (p : Problem) (ps : List Part) (why : Reason) → IsInput input p ps → ¬ (IsRefusedInput input why) }
{}
