//! Laws of the linear forms of terms. This function does nothing: its contract is a theorem.
ghost use Rattle.std.specs.Prelude.{◌≡◌, ◌≢◌, ℕ, ℤ, pos, Bool, false, List, [], ◌∷◌};
ghost use Rattle.ae_math.specs.Fractions.{ℚ, ratio, one_ℚ, neg_ℚ, inverse_ℚ};
ghost use Rattle.ae_math.specs.Forms.{Form, number, single, plus, minus, scale, is_zero, value};
ghost use Rattle.ae_rules.specs.Linear.{form, times, IsSame};
ghost use Rattle.ae_rules.specs.Combinations.{IsLinear, AllHold, Combines};
ghost use Rattle.ae_rules.specs.Lines.{Fact};
ghost use Rattle.ae_core.specs.declared.terms.Sort.{Sort};
ghost use Rattle.ae_core.specs.declared.terms.Term.{Term, Num as Numeral, Fresh as FreshConstant, Apply as Applied};
ghost use Rattle.ae_core.specs.declared.terms.Head.TheVariants.{Symbol as SymbolHead, Int as IntOp, Real as RealOp};
ghost use Rattle.ae_core.specs.declared.terms.Op.TheVariants.{Add as AddOp, Sub as SubOp, Neg as NegOp, Mul as MulOp, Div as DivOp};

/// The linear form of each kind of term that is computed, and what holds of combinations.
///
/// A valuation `L` of terms is linear where each term has the value of its linear form, with the
/// value `u` for the number 1. It gives the two sides of an equation one value where a nonzero
/// multiple of their difference is a combination of equations whose sides it gives one value.
pub fn linear_forms_are_computed()
    ensures numerals { (top bottom : ℤ) (real : Bool) → form (Numeral top bottom real) ≡ number (ratio top bottom) }
    ensures fresh_constants { (n : ℕ) (s : Sort) → form (FreshConstant n s) ≡ single (FreshConstant n s) }
    ensures symbols { (f : ℕ) (ss : List Sort) (ts : List Term) → form (Applied (SymbolHead f) ss ts) ≡ single (Applied (SymbolHead f) ss ts) }
    ensures int_sums { (ss : List Sort) (a b : Term) → form (Applied (IntOp AddOp) ss (a ∷ b ∷ [])) ≡ plus (form a) (form b) }
    ensures real_sums { (ss : List Sort) (a b : Term) → form (Applied (RealOp AddOp) ss (a ∷ b ∷ [])) ≡ plus (form a) (form b) }
    ensures int_differences { (ss : List Sort) (a b : Term) → form (Applied (IntOp SubOp) ss (a ∷ b ∷ [])) ≡ minus (form a) (form b) }
    ensures real_differences { (ss : List Sort) (a b : Term) → form (Applied (RealOp SubOp) ss (a ∷ b ∷ [])) ≡ minus (form a) (form b) }
    ensures int_negations { (ss : List Sort) (a : Term) → form (Applied (IntOp NegOp) ss (a ∷ [])) ≡ scale (neg_ℚ one_ℚ) (form a) }
    ensures real_negations { (ss : List Sort) (a : Term) → form (Applied (RealOp NegOp) ss (a ∷ [])) ≡ scale (neg_ℚ one_ℚ) (form a) }
    ensures int_products { (ss : List Sort) (a b : Term) → form (Applied (IntOp MulOp) ss (a ∷ b ∷ [])) ≡ times (Applied (IntOp MulOp) ss (a ∷ b ∷ [])) (form a) (form b) }
    ensures real_products { (ss : List Sort) (a b : Term) → form (Applied (RealOp MulOp) ss (a ∷ b ∷ [])) ≡ times (Applied (RealOp MulOp) ss (a ∷ b ∷ [])) (form a) (form b) }
    ensures real_quotients { (ss : List Sort) (a : Term) (top bottom : ℤ) (real : Bool) → is_zero (ratio top bottom) ≡ false → form (Applied (RealOp DivOp) ss (a ∷ Numeral top bottom real ∷ [])) ≡ scale (inverse_ℚ (ratio top bottom)) (form a) }
    ensures same_values { (e : Term → ℚ) (u : ℚ) (f g : Form Term) → IsSame f g → value e u f ≡ value e u g }
    ensures combinations { (L : Term → ℚ) (u : ℚ) → IsLinear L u → (s t : Term) (d : ℤ) (fs : List (ℤ × Fact)) → d ≢ pos 0 → Combines d s t fs → AllHold L fs → L s ≡ L t }
{}
