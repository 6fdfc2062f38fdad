//! Laws of the definitions. These functions do nothing: each one's contract is a theorem.
ghost use Rattle.std.specs.Prelude.{◌≡◌, ℕ, ℤ, pos, suc, true, false, ◌+ℤ◌, ◌*ℤ◌, neg_ℤ, ◌*◌, int_lt};
ghost use Rattle.std.specs.Int.{IsGcd, ◌∣◌};
ghost use Rattle.ae_math.specs.Fractions.{ℚ, ◌+ℚ◌, ◌*ℚ◌, zero_ℚ, one_ℚ, neg_ℚ, inverse_ℚ, frac, joined, is_below, is_positive};
ghost use Rattle.ae_math.specs.Divisors.{IsLowest};
ghost use Rattle.ae_math.specs.Forms.{Form, number, single, plus, minus, scale, factor, SameForm, substitute, value};

/// The integers are a commutative ring.
pub fn integers_are_a_ring()
    ensures sums_associate { (a b c : ℤ) → a +ℤ b +ℤ c ≡ a +ℤ (b +ℤ c) }
    ensures sums_commute { (a b : ℤ) → a +ℤ b ≡ b +ℤ a }
    ensures zero { (a : ℤ) → pos 0 +ℤ a ≡ a }
    ensures negation { (a : ℤ) → a +ℤ neg_ℤ a ≡ pos 0 }
    ensures products_associate { (a b c : ℤ) → a *ℤ b *ℤ c ≡ a *ℤ (b *ℤ c) }
    ensures products_commute { (a b : ℤ) → a *ℤ b ≡ b *ℤ a }
    ensures one { (a : ℤ) → pos 1 *ℤ a ≡ a }
    ensures products_distribute { (a b c : ℤ) → a *ℤ (b +ℤ c) ≡ a *ℤ b +ℤ a *ℤ c }
{}

/// The fractions are a field, and two of them are equal exactly where they agree crosswise.
///
/// `frac a n` is `a / (n + 1)`, and `joined m n + 1` is `(m + 1) * (n + 1)`.
pub fn fractions_are_a_field()
    ensures same { (a b : ℤ) (m n : ℕ) → a *ℤ pos (suc n) ≡ b *ℤ pos (suc m) → frac a m ≡ frac b n }
    ensures crosswise { (a b : ℤ) (m n : ℕ) → frac a m ≡ frac b n → a *ℤ pos (suc n) ≡ b *ℤ pos (suc m) }
    ensures sums { (a b : ℤ) (m n : ℕ) → frac a m +ℚ frac b n ≡ frac (a *ℤ pos (suc n) +ℤ b *ℤ pos (suc m)) (joined m n) }
    ensures products { (a b : ℤ) (m n : ℕ) → frac a m *ℚ frac b n ≡ frac (a *ℤ b) (joined m n) }
    ensures sums_associate { (x y z : ℚ) → x +ℚ y +ℚ z ≡ x +ℚ (y +ℚ z) }
    ensures sums_commute { (x y : ℚ) → x +ℚ y ≡ y +ℚ x }
    ensures zero { (x : ℚ) → zero_ℚ +ℚ x ≡ x }
    ensures negation { (x : ℚ) → x +ℚ neg_ℚ x ≡ zero_ℚ }
    ensures products_associate { (x y z : ℚ) → x *ℚ y *ℚ z ≡ x *ℚ (y *ℚ z) }
    ensures products_commute { (x y : ℚ) → x *ℚ y ≡ y *ℚ x }
    ensures one { (x : ℚ) → one_ℚ *ℚ x ≡ x }
    ensures products_distribute { (x y z : ℚ) → x *ℚ (y +ℚ z) ≡ x *ℚ y +ℚ x *ℚ z }
    ensures inverse { (x : ℚ) → ¬ (x ≡ zero_ℚ) → x *ℚ inverse_ℚ x ≡ one_ℚ }
{}

/// The fractions are in a total order that sums keep, and products with a positive one.
pub fn fractions_are_ordered()
    ensures crosswise { (a b : ℤ) (m n : ℕ) → is_below (frac a m) (frac b n) ≡ int_lt (a *ℤ pos (suc n)) (b *ℤ pos (suc m)) }
    ensures irreflexive { (x : ℚ) → is_below x x ≡ false }
    ensures asymmetric { (x y : ℚ) → is_below x y ≡ true → is_below y x ≡ false }
    ensures transitive { (x y z : ℚ) → is_below x y ≡ true → is_below y z ≡ true → is_below x z ≡ true }
    ensures total { (x y : ℚ) → is_below x y ≡ false → is_below y x ≡ false → x ≡ y }
    ensures with_sums { (x y z : ℚ) → is_below (x +ℚ z) (y +ℚ z) ≡ is_below x y }
    ensures with_products { (x y z : ℚ) → is_positive z ≡ true → is_below (x *ℚ z) (y *ℚ z) ≡ is_below x y }
{}

/// Two numbers have one greatest common divisor; a fraction has one form in lowest terms.
pub fn divisors_are_common()
    ensures exists { (a b : ℕ) → (g : ℕ) × IsGcd a b g }
    ensures one { (a b g h : ℕ) → IsGcd a b g → IsGcd a b h → g ≡ h }
    ensures of_multiples { (a b g c : ℕ) → IsGcd a b g → IsGcd (a * c) (b * c) (g * c) }
    ensures euclid { (a b c : ℕ) → IsGcd a b 1 → a ∣ b * c → a ∣ c }
    ensures lowest_exists { (a : ℤ) (n : ℕ) → (b : ℤ) × (m : ℕ) × IsLowest b m × (frac a n ≡ frac b m) }
    ensures lowest_is_one { (a b : ℤ) (m n : ℕ) → IsLowest a m → IsLowest b n → frac a m ≡ frac b n → (a ≡ b) × (m ≡ n) }
{}

/// Forms with the same factors and constants are as good as equal.
pub fn forms_are_the_same<K>()
    ensures reflexive { (same : Discrete K) (f : Form K) → SameForm same f f }
    ensures symmetric { (same : Discrete K) (f g : Form K) → SameForm same f g → SameForm same g f }
    ensures transitive { (same : Discrete K) (f g h : Form K) → SameForm same f g → SameForm same g h → SameForm same f h }
    ensures sums { (same : Discrete K) (f f' g g' : Form K) → SameForm same f f' → SameForm same g g' → SameForm same (plus f g) (plus f' g') }
    ensures multiples { (same : Discrete K) (a : ℚ) (f f' : Form K) → SameForm same f f' → SameForm same (scale a f) (scale a f') }
{}

/// Forms are added and scaled as the vectors of a space over the fractions.
pub fn forms_are_vectors<K>()
    ensures sums_commute { (same : Discrete K) (f g : Form K) → SameForm same (plus f g) (plus g f) }
    ensures sums_associate { (same : Discrete K) (f g h : Form K) → SameForm same (plus (plus f g) h) (plus f (plus g h)) }
    ensures zero { (same : Discrete K) (f : Form K) → SameForm same (plus (number zero_ℚ) f) f }
    ensures negation { (same : Discrete K) (f : Form K) → SameForm same (minus f f) (number zero_ℚ) }
    ensures by_zero { (same : Discrete K) (f : Form K) → SameForm same (scale zero_ℚ f) (number zero_ℚ) }
    ensures by_one { (same : Discrete K) (f : Form K) → SameForm same (scale one_ℚ f) f }
    ensures twice { (same : Discrete K) (a b : ℚ) (f : Form K) → SameForm same (scale a (scale b f)) (scale (a *ℚ b) f) }
    ensures of_sums { (same : Discrete K) (a : ℚ) (f g : Form K) → SameForm same (scale a (plus f g)) (plus (scale a f) (scale a g)) }
    ensures by_sums { (same : Discrete K) (a b : ℚ) (f : Form K) → SameForm same (scale (a +ℚ b) f) (plus (scale a f) (scale b f)) }
    ensures cancelled { (same : Discrete K) (a : ℚ) (f g : Form K) → ¬ (a ≡ zero_ℚ) → SameForm same (scale a f) (scale a g) → SameForm same f g }
{}

/// A form is put for a key in sums and multiples part by part.
pub fn forms_are_substituted<K>()
    ensures same { (same : Discrete K) (f f' : Form K) (k : K) (g g' : Form K) → SameForm same f f' → SameForm same g g' → SameForm same (substitute same f k g) (substitute same f' k g') }
    ensures in_sums { (same : Discrete K) (f g : Form K) (k : K) (h : Form K) → SameForm same (substitute same (plus f g) k h) (plus (substitute same f k h) (substitute same g k h)) }
    ensures in_multiples { (same : Discrete K) (a : ℚ) (f : Form K) (k : K) (h : Form K) → SameForm same (substitute same (scale a f) k h) (scale a (substitute same f k h)) }
    ensures gone { (same : Discrete K) (f : Form K) (k : K) (h : Form K) → factor same h k ≡ zero_ℚ → factor same (substitute same f k h) k ≡ zero_ℚ }
    ensures absent { (same : Discrete K) (f : Form K) (k : K) (h : Form K) → factor same f k ≡ zero_ℚ → SameForm same (substitute same f k h) f }
{}

/// The value of a form depends on its factors and its constant alone, and is linear.
pub fn forms_have_values<K>()
    ensures same { (same : Discrete K) (e : K → ℚ) (u : ℚ) (f g : Form K) → SameForm same f g → value e u f ≡ value e u g }
    ensures sums { (e : K → ℚ) (u : ℚ) (f g : Form K) → value e u (plus f g) ≡ value e u f +ℚ value e u g }
    ensures multiples { (e : K → ℚ) (u a : ℚ) (f : Form K) → value e u (scale a f) ≡ a *ℚ value e u f }
    ensures numbers { (e : K → ℚ) (u a : ℚ) → value {K = K} e u (number a) ≡ u *ℚ a }
    ensures keys { (e : K → ℚ) (u : ℚ) (k : K) → value e u (single k) ≡ e k }
    ensures substitution { (same : Discrete K) (e : K → ℚ) (u : ℚ) (f : Form K) (k : K) (h : Form K) → e k ≡ value e u h → value e u (substitute same f k h) ≡ value e u f }
{}
