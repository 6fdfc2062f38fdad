//! Laws of the definitions. These functions do nothing: each one's contract is a theorem.
ghost use Rattle.std.specs.Prelude.{ℕ, ℤ, pos, neg_ℤ, ◌≡◌, ◌<ℤ◌, ◌*ℤ◌, ◌⊎◌, List, [], ◌∷◌, ◌++◌, map, true};
ghost use Rattle.std.specs.List.{AllByRecursion};
ghost use native.Mathlib.Decide.{ℕ_discrete};
ghost use Rattle.ae_math.specs.Fractions.{ℚ, ◌*ℚ◌, is_positive, zero_ℚ, is_below, whole};
ghost use Rattle.ae_math.specs.Forms.{Form, SameForm, scale};
ghost use Rattle.ae_num.specs.declared.forms.Lin.{Lin};
ghost use Rattle.ae_num.specs.Forms.{meaning, SameMeaning, IsNormal, factor_of};
ghost use Rattle.ae_core.specs.declared.terms.Term.{Term};
ghost use Rattle.ae_core.specs.declared.terms.Sort.{Sort};
ghost use Rattle.ae_core.specs.declared.problems.Signature.{Signature};
ghost use Rattle.ae_core.specs.declared.proofs.EqLine.{EqLine};
ghost use Rattle.ae_core.specs.declared.proofs.EqLine.TheVariants.{LeSum, LtSum};
ghost use Rattle.ae_core.specs.declared.formulas.Lit.{Lit};
ghost use Rattle.ae_core.specs.declared.proofs.Relation.TheVariants.{Equal, AtMost, Below};
ghost use Rattle.ae_rules.specs.Linear.{IsSame};
ghost use Rattle.ae_rules.specs.Lines.{Fact, at_most, below, gap, total, IsNumeric, HaveSort, Stated, AllowedLeSum, AllowedLtSum, AreNumbers, Allowed, AllAllowed, fact_ok};
ghost use Rattle.ae_rules.specs.Derivations.{EndsZero, CannotHold};
ghost use Rattle.ae_rows.specs.Rows.{mixture, combination, IsOver};
ghost use Rattle.ae_row_lines.specs.Says.{Says, Used, shares_of, SaysCombination, parts_of_line};

/// A sum of shares of rows is a sum of their lines: where `share * d * m` is `factor * multiple` for each.
pub fn mixtures_are_sums()
    ensures { (names : ℕ → Term) (d m : ℤ) (f : Form ℕ) (fact : Fact) (us : List Used) → Says names m f fact → SameForm ℕ_discrete f (mixture (shares_of us)) → AllByRecursion (λ u. Says names u.multiple u.form u.fact) us
        → AllByRecursion (λ u. (whole d *ℚ whole m) *ℚ u.share ≡ whole u.factor *ℚ whole u.multiple) us → IsSame (scale (whole d) (gap fact)) (total (map (λ u. (u.factor, u.fact)) us)) }
{}

/// The combination of two rows is an allowed line of sums, which adds up the lines of the two rows.
///
/// Its factors are those of the name in the two rows, and the number by which it is multiplied is
/// the product of the two denominators over that of the combination. It is strict where one of the two is.
pub fn combinations_are_lines()
    ensures at_most { (sig : Signature) (names : ℕ → Term) (n : ℕ) (p q r : Lin) (left right : Fact) (s t : Term) (d : ℤ) (sort : Sort) (earlier : List EqLine) (j k : ℕ) → SaysCombination names n p q r left right
        (at_most s t) d → IsNumeric sort → HaveSort sig sort left → HaveSort sig sort right → HaveSort sig sort (at_most s t) → Stated earlier j left → Stated earlier k right → AllowedLeSum sig earlier s t d (parts_of_line n p q j k) }
    ensures below { (sig : Signature) (names : ℕ → Term) (n : ℕ) (p q r : Lin) (left right : Fact) (s t : Term) (d : ℤ) (sort : Sort) (earlier : List EqLine) (j k : ℕ) → SaysCombination names n p q r left right (below s t) d
        → (left.relation ≡ Below) ⊎ (right.relation ≡ Below) → IsNumeric sort → HaveSort sig sort left → HaveSort sig sort right → HaveSort sig sort (below s t) → Stated earlier j left → Stated earlier k right
        → AllowedLtSum sig earlier s t d (parts_of_line n p q j k) }
{}

/// A line that says a number which isn't positive, or is negative where the line isn't strict, ends a block.
pub fn constants_end()
    ensures { (sig : Signature) (names : ℕ → Term) (m : ℤ) (f : Form ℕ) (fact : Fact) (lines : List EqLine) (k : ℕ) → Says names m f fact → IsOver 0 f → CannotHold fact.relation f.constant → AreNumbers sig fact
        → Stated lines k fact → EndsZero sig lines k }
{}

/// The number by which the combination is multiplied: its denominator divides the product of the two denominators.
pub fn denominators_divide()
    ensures { (n : ℕ) (p q r : Lin) → IsNormal p → IsNormal q → IsNormal r → SameMeaning (meaning r) (combination n (meaning p) (meaning q)) → (d : ℤ) × (pos 0 <ℤ d) × (d *ℤ r.den ≡ p.den *ℤ q.den) }
{}
