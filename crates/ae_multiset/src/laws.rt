//! Laws of the definitions. These functions do nothing: each one's contract is a theorem.
ghost use mathlib.Core.WellFounded.{WellFounded};
ghost use Rattle.std.specs.Prelude.{◌≡◌, ℕ, ◌+◌, ◌-◌, ◌<◌, ◌≤◌, min, max, List, [], ◌∷◌, ◌++◌, length, ◌⊎◌};
ghost use Rattle.std.specs.List.{All};
ghost use Rattle.std.specs.List.Sorted.{IsNonDecreasing};
ghost use Rattle.ae_multiset.specs.Multisets.{count, IsSame, IsPart, minus, common, union, IsLess, rising};
ghost use Rattle.ae_multiset.specs.Ranks.{rank};
ghost use Rattle.ae_multiset.specs.Rewriting.{Step, ReducesTo, IsLinked, Joins, IsReduced, Fits, HasReduced, Decreases, OverlapsJoin, overlap_first, overlap_second, IsNormalForm};
ghost use Rattle.ae_multiset.specs.Normal.{IsRule, normal_form};
ghost use Rattle.ae_multiset.specs.Example.{first_two, all_three};

/// A set of rules that rewrite multisets.
pub trait RuleSet {
    /// There is a rule from the one multiset to the other.
    ghost rule: { Self → List ℕ → List ℕ → Type 0 };
}

/// How often a name stands in a sum, a difference, a common part and a union.
pub fn counts()
    ensures sum { (x : ℕ) (a b : List ℕ) → count x (a ++ b) ≡ count x a + count x b }
    ensures difference { (x : ℕ) (a b : List ℕ) → count x (minus a b) ≡ count x a - count x b }
    ensures common { (x : ℕ) (a b : List ℕ) → count x (common a b) ≡ min (count x a) (count x b) }
    ensures union { (x : ℕ) (a b : List ℕ) → count x (union a b) ≡ max (count x a) (count x b) }
    ensures size { (a b : List ℕ) → IsSame a b → length a ≡ length b }
{}

/// Parts: what is left of a whole, the greatest common part, and the least multiset of which two are parts.
pub fn parts()
    ensures rest { (a b : List ℕ) → IsPart a b → IsSame b (a ++ minus b a) }
    ensures of_sum { (a b : List ℕ) → IsPart a (a ++ b) }

    ensures common_of_first { (a b : List ℕ) → IsPart (common a b) a }
    ensures common_of_second { (a b : List ℕ) → IsPart (common a b) b }
    ensures common_greatest { (a b c : List ℕ) → IsPart c a → IsPart c b → IsPart c (common a b) }

    ensures union_over_first { (a b : List ℕ) → IsPart a (union a b) }
    ensures union_over_second { (a b : List ℕ) → IsPart b (union a b) }
    ensures union_least { (a b c : List ℕ) → IsPart a c → IsPart b c → IsPart (union a b) c }
{}

/// The canonical spelling: each multiset has one, and it is the one in rising order.
pub fn spelling()
    ensures same { (a : List ℕ) → IsSame a (rising a) }
    ensures rises { (a : List ℕ) → IsNonDecreasing (rising a) }
    ensures one { (a b : List ℕ) → IsNonDecreasing a → IsNonDecreasing b → IsSame a b → a ≡ b }
{}

/// The order is total on multisets, closed under adding names and well founded. By `falls`, a number falls with each
/// descent among multisets of at most `size` names below `names`.
pub fn order()
    ensures total { (a b : List ℕ) → IsLess a b ⊎ IsSame a b ⊎ IsLess b a }
    ensures different { (a b : List ℕ) → IsLess a b → IsSame a b → ⊥ }
    ensures transitive { (a b c : List ℕ) → IsLess a b → IsLess b c → IsLess a c }
    ensures alike { (a b c d : List ℕ) → IsSame a b → IsSame c d → IsLess a c → IsLess b d }
    ensures closed { (a b c : List ℕ) → IsLess a b → IsLess (a ++ c) (b ++ c) }
    ensures well_founded { WellFounded IsLess }
    ensures falls { (size names : ℕ) (a b : List ℕ) → length b ≤ size → All (λ x. x < names) a → All (λ x. x < names) b
        → IsLess a b → rank size names a < rank size names b }
{}

/// Reduction by any set of rules: a left side is taken out and the right side put in, it goes on inside a larger
/// multiset, and a rule that overlaps with itself joins.
pub fn reduction<R: RuleSet>(rules: &R)
    ensures turn { (l r a rest b : List ℕ) → R.rule rules.now l r → IsPart l a → IsSame rest (minus a l) → IsSame b (r ++ rest)
        → Step (R.rule rules.now) a b }
    ensures context { (a b c : List ℕ) → ReducesTo (R.rule rules.now) a b → ReducesTo (R.rule rules.now) (a ++ c) (b ++ c) }
    ensures chain { (a b c : List ℕ) → ReducesTo (R.rule rules.now) a b → ReducesTo (R.rule rules.now) b c → ReducesTo (R.rule rules.now) a c }
    ensures with_itself { (l r : List ℕ) → R.rule rules.now l r → Joins (R.rule rules.now) (overlap_first l r l) (overlap_second l l r) }
{}

/// Reduction by rules that decrease leads down, and by `falls` a number falls with each step. Where it can be told
/// whether a rule fits, each multiset reduces to one that is reduced.
pub fn descent<R: RuleSet>(rules: &R)
    requires decreases { Decreases (R.rule rules.now) }
    ensures step { (a b : List ℕ) → Step (R.rule rules.now) a b → IsLess b a }
    ensures falls { (size names : ℕ) (a b : List ℕ) → length a ≤ size → All (λ x. x < names) a → All (λ x. x < names) b
        → Step (R.rule rules.now) a b → rank size names b < rank size names a }
    ensures chain { (a b : List ℕ) → ReducesTo (R.rule rules.now) a b → IsSame a b ⊎ IsLess b a }
    ensures reduced { ((a : List ℕ) → Fits (R.rule rules.now) a ⊎ IsReduced (R.rule rules.now) a)
        → (a : List ℕ) → HasReduced (R.rule rules.now) a }
{}

/// Rules that decrease, and whose overlaps of two different ones join, are confluent: linked multisets join, and two
/// linked multisets that are both reduced are the same. So what is reached and reduced is every reduced multiset that
/// is linked to the start.
pub fn confluence<R: RuleSet>(rules: &R)
    requires decreases { Decreases (R.rule rules.now) }
    requires overlaps { OverlapsJoin (R.rule rules.now) }
    ensures local { (a b c : List ℕ) → Step (R.rule rules.now) a b → Step (R.rule rules.now) a c → Joins (R.rule rules.now) b c }
    ensures confluent { (a b c : List ℕ) → ReducesTo (R.rule rules.now) a b → ReducesTo (R.rule rules.now) a c → Joins (R.rule rules.now) b c }
    ensures linked { (a b : List ℕ) → IsLinked (R.rule rules.now) a b → Joins (R.rule rules.now) a b }
    ensures unique { (a b : List ℕ) → IsReduced (R.rule rules.now) a → IsReduced (R.rule rules.now) b
        → IsLinked (R.rule rules.now) a b → IsSame a b }
    ensures answer { (a b reached : List ℕ) → ReducesTo (R.rule rules.now) a reached → IsReduced (R.rule rules.now) reached
        → IsReduced (R.rule rules.now) b → IsLinked (R.rule rules.now) a b → IsSame b reached }
{}

/// The normal form by such rules is one function, equal on linked multisets, and a part may be brought into it first.
pub fn normal_forms<R: RuleSet>(rules: &R)
    requires decreases { Decreases (R.rule rules.now) }
    requires overlaps { OverlapsJoin (R.rule rules.now) }
    ensures one { (f g : List ℕ → List ℕ) → IsNormalForm (R.rule rules.now) f → IsNormalForm (R.rule rules.now) g
        → (a : List ℕ) → f a ≡ g a }
    ensures only { (f : List ℕ → List ℕ) → IsNormalForm (R.rule rules.now) f → (a b : List ℕ) → IsLinked (R.rule rules.now) a b
        → IsReduced (R.rule rules.now) b → IsSame (f a) b }
    ensures linked { (f : List ℕ → List ℕ) → IsNormalForm (R.rule rules.now) f → (a b : List ℕ) → IsLinked (R.rule rules.now) a b → f a ≡ f b }
    ensures first { (f : List ℕ → List ℕ) → IsNormalForm (R.rule rules.now) f → (a b : List ℕ) → f (a ++ b) ≡ f (f a ++ b) }
    ensures second { (f : List ℕ → List ℕ) → IsNormalForm (R.rule rules.now) f → (a b : List ℕ) → f (a ++ b) ≡ f (a ++ f b) }
{}

/// Each multiset has a normal form by a list of rules that decrease, not above it, and `normal_form` finds it.
pub fn normal_form_by_rules()
    ensures found { (rules : List (List ℕ × List ℕ)) → Decreases (IsRule rules) → IsNormalForm (IsRule rules) (normal_form rules) }
    ensures below { (rules : List (List ℕ × List ℕ)) → Decreases (IsRule rules) → (a : List ℕ)
        → IsSame a (normal_form rules a) ⊎ IsLess (normal_form rules a) a }
{}

/// The results of an overlap, and the rule that it gives: with the third rule the example meets what confluence asks
/// for, so one multiset alone is reached that is reduced.
pub fn example()
    ensures overlap_first { rising (overlap_first (0 ∷ 1 ∷ []) (2 ∷ []) (0 ∷ 3 ∷ [])) ≡ 2 ∷ 3 ∷ [] }
    ensures overlap_second { rising (overlap_second (0 ∷ 1 ∷ []) (0 ∷ 3 ∷ []) (4 ∷ [])) ≡ 1 ∷ 4 ∷ [] }
    ensures decreases { Decreases (IsRule all_three) }
    ensures overlaps { OverlapsJoin (IsRule all_three) }
    ensures two { normal_form first_two (0 ∷ 1 ∷ 3 ∷ []) ≡ 2 ∷ 3 ∷ [] }
    ensures three { normal_form all_three (0 ∷ 1 ∷ 3 ∷ []) ≡ 2 ∷ 3 ∷ [] }
    ensures alone { (b : List ℕ) → ReducesTo (IsRule all_three) (0 ∷ 1 ∷ 3 ∷ []) b → IsReduced (IsRule all_three) b
        → IsSame b (2 ∷ 3 ∷ []) }
{}
