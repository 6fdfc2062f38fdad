//! Laws of the definitions.

ghost use Rattle.std.specs.Prelude.{ℕ, ℤ, pos, List, ◌≡◌, ◌*◌, ◌<◌};
ghost use Rattle.std.specs.Int.{◌∣◌};
ghost use Rattle.ae_lex.specs.Lexis.{IsTokenized, IsFault, IsLowest};
ghost use Rattle.ae_lex.specs.declared.kinds.LexFault.{LexFault};
ghost use Rattle.ae_lex.specs.declared.kinds.Token.{Token};

/// A text has at most one list of tokens, at most one fault, and never both.
pub fn one_answer()
    ensures one_list { (text : List ℕ) (ts us : List Token) → IsTokenized text ts → IsTokenized text us → ts ≡ us }
    ensures one_fault { (text : List ℕ) (f g : LexFault) → IsFault text f → IsFault text g → f ≡ g }
    ensures never_both { (text : List ℕ) (ts : List Token) (f : LexFault) → IsTokenized text ts → ¬ IsFault text f }
{}

/// Lowest terms are the fraction itself, and its two parts have no divisor in common but 1.
pub fn lowest_terms()
    ensures same { (top bottom : ℤ) (n m : ℕ) (f : IsLowest top bottom n m) → f.up * m ≡ n * f.down }
    ensures coprime { (top bottom : ℤ) (n m : ℕ) (f : IsLowest top bottom n m) → 0 < m → (d : ℕ) → d ∣ f.up → d ∣ f.down → d ≡ 1 }
{}
