//! What holds of the texts, as clauses.
ghost use Rattle.std.specs.Prelude.{ℕ, ◌≡◌, ◌++◌, ◌∷◌, ◌<◌, ◌^◌, [], IsTrue, List, map};
ghost use Rattle.std.specs.List.{AllByRecursion};
ghost use Rattle.ae_codes.specs.Closers.{Close, closers};
ghost use Rattle.ae_codes.specs.Codes.{Exact};
ghost use Rattle.ae_num.specs.Forms.{IsNormal};
ghost use Rattle.ae_num.specs.declared.forms.Lin.{Lin};
ghost use Rattle.ae_num.specs.declared.forms.Value.{Value, Leaf, Number, Fields};
ghost use Rattle.ae_valuetext.specs.Lins.{linear_form};
ghost use Rattle.ae_valuetext.specs.Texts.{lin_text, value_text, AreNames};
ghost use Rattle.ae_valuetext.specs.Values.{InRow, ValueEnd, value};

/// Linear forms have one text each, no text begins another, and reading is exact: it gives the form whose text stands there, and where there is none it
/// stops at the first byte that no text continues. A form has a text exactly where it is in the normal form and its names have 64 bits.
#[tactic(auto, using(crate::proofs::TextLaws::forms_exact, crate::proofs::TextLaws::forms_spelled, crate::proofs::TextLaws::normal_forms_fit, crate::proofs::TextLaws::forms_are_normal))]
pub fn form_texts()
    ensures exact { Exact linear_form }
    ensures spelled { (l : Lin) → linear_form.Fits l → linear_form.text l ≡ lin_text l }
    ensures normal_forms_fit { (l : Lin) → IsNormal l → AreNames (map (λ p. p.key) l.parts) → linear_form.Fits l }
    ensures others_do_not { (l : Lin) → linear_form.Fits l → IsNormal l × AreNames (map (λ p. p.key) l.parts) }
{}

/// The same of values, each with the byte that closes it.
#[tactic(auto, using(crate::proofs::TextLaws::values_exact, crate::proofs::TextLaws::values_spelled))]
pub fn value_texts()
    ensures exact { (k : Close) → Exact (value k) }
    ensures spelled { (k : Close) (v : ValueEnd) → (value k).text v ≡ value_text v.0 ++ v.1 ∷ [] }
{}

/// A name of 64 bits has a text as a value, and so has a form in the normal form over such names, and fields of which each has one.
#[tactic(auto, using(crate::proofs::TextLaws::names_fit, crate::proofs::TextLaws::numbers_fit, crate::proofs::TextLaws::fields_fit))]
pub fn values_with_texts()
    ensures names { (k : Close) (n e : ℕ) → n < 2 ^ 64 → IsTrue (closers k.one k.two e) → (value k).Fits (Leaf n, e) }
    ensures numbers { (k : Close) (l : Lin) (e : ℕ) → IsNormal l → AreNames (map (λ p. p.key) l.parts) → IsTrue (closers k.one k.two e) → (value k).Fits (Number l, e) }
    ensures fields { (k : Close) (vs : List Value) (e : ℕ) → AllByRecursion InRow vs → IsTrue (closers k.one k.two e) → (value k).Fits (Fields vs, e) }
{}
