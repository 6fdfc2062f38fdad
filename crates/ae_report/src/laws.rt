//! Laws of the definitions.

ghost use Rattle.std.specs.Prelude.{ℕ, List, ◌≡◌};
ghost use Rattle.ae_report.specs.Lines.{Precede};

/// A place has one line and one column.
pub fn one_place()
    ensures one_line { (bytes : List ℕ) (line column other_line other_column : ℕ) → Precede bytes line column → Precede bytes other_line other_column → line ≡ other_line }
    ensures one_column { (bytes : List ℕ) (line column other_line other_column : ℕ) → Precede bytes line column → Precede bytes other_line other_column → column ≡ other_column }
{}
