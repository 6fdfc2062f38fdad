//! Laws of descent. These functions do nothing: each one's contract is a theorem.
ghost use Rattle.std.specs.Prelude.{◌≡◌, ◌⊎◌, ℕ, List, ◌++◌, map};
ghost use Rattle.ae_multiset.specs.Rewriting.{ReducesTo};
ghost use Rattle.ae_descents.specs.Descents.{Descends};

/// What gives way to what.
pub trait Replacing {
    /// The first name may give way to the second.
    ghost name: { Self → ℕ → ℕ → Type 0 };

    /// There is a rule from the one multiset to the other.
    ghost rule: { Self → List ℕ → List ℕ → Type 0 };
}

/// Descents come one after the other, inside a larger multiset too. Reduction is one, and so is a multiset with each name replaced.
pub fn descents<R: Replacing>(by: &R)
    ensures chain { (a b c : List ℕ) → Descends (R.name by.now) (R.rule by.now) a b → Descends (R.name by.now) (R.rule by.now) b c
        → Descends (R.name by.now) (R.rule by.now) a c }
    ensures context { (a b c : List ℕ) → Descends (R.name by.now) (R.rule by.now) a b → Descends (R.name by.now) (R.rule by.now) (a ++ c) (b ++ c) }
    ensures reduced { (a b : List ℕ) → ReducesTo (R.rule by.now) a b → Descends (R.name by.now) (R.rule by.now) a b }
    ensures renamed { (rep : ℕ → ℕ) → ((n : ℕ) → R.name by.now n (rep n)) → (a : List ℕ) → Descends (R.name by.now) (R.rule by.now) a (map rep a) }
{}

/// Where each right side of the later rules descends from that of an earlier rule with the same left side, what descends by the later ones does by the
/// earlier ones.
pub fn descents_through<R: Replacing, S: Replacing>(earlier: &R, later: &S)
    requires names { (n r : ℕ) → S.name later.now n r → (n ≡ r) ⊎ R.name earlier.now n r }
    requires rules { (l r : List ℕ) → S.rule later.now l r → (q : List ℕ) × R.rule earlier.now l q × Descends (R.name earlier.now) (R.rule earlier.now) q r }
    ensures { (a b : List ℕ) → Descends (S.name later.now) (S.rule later.now) a b → Descends (R.name earlier.now) (R.rule earlier.now) a b }
{}
