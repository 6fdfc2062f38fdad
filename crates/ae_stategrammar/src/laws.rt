//! What holds of the texts, as clauses.
ghost use Rattle.std.specs.Prelude.{ℕ, ◌≡◌, IsTrue, List};
ghost use Rattle.ae_codes.specs.Closers.{Close, closers};
ghost use Rattle.ae_codes.specs.Codes.{Exact};
ghost use Rattle.ae_core.specs.declared.problems.AcSymbol.{AcSymbol};
ghost use Rattle.ae_core.specs.declared.problems.Signature.{Signature};
ghost use Rattle.ae_journal.specs.Systems.{IsNormalValue};
ghost use Rattle.ae_journal.specs.declared.lines.Story.{Story};
ghost use Rattle.ae_journal.specs.declared.systems.Saturated.{Saturated};
ghost use Rattle.ae_num.specs.declared.forms.Value.{Value};
ghost use Rattle.ae_stategrammar.specs.Fitting.{Rises, names_in};
ghost use Rattle.ae_stategrammar.specs.Journals.{story};
ghost use Rattle.ae_stategrammar.specs.Sides.{SidesOf, sides, symbol};
ghost use Rattle.ae_stategrammar.specs.States.{StateStands, state};
ghost use Rattle.ae_stategrammar.specs.StateTexts.{sides_text, state_text, story_text, number_text};
ghost use Rattle.ae_stategrammar.specs.Widths.{NumberText, number_code};
ghost use Rattle.ae_valuetext.specs.Texts.{AreNames};
ghost use Rattle.ae_valuetext.specs.Values.{value};

/// What stands behind the word of a rule or a pair has one text, no text begins another, and reading is exact: it gives the symbol and the two multisets
/// whose text stands there, and where there is none it stops at the first byte that no text continues. What has a text is spelled as it is written.
/// Both multisets are written rising, and any that rise have a text behind a symbol that has one.
#[tactic(auto, using(crate::proofs::TextLaws::sides_exact, crate::proofs::TextLaws::sides_written, crate::proofs::TextLaws::rising_fit, crate::proofs::TextLaws::others_do_not))]
pub fn sides_texts()
    ensures exact { (sig : Signature) → Exact (sides sig) }
    ensures spelled { (sig : Signature) (v : SidesOf sig) → (sides sig).Fits v → (sides sig).text v ≡ sides_text sig v.0 v.1.0 v.1.1 }
    ensures rising_fit { (sig : Signature) (s : AcSymbol) (left right : List ℕ) → (symbol sig).Fits s → Rises 0 left → Rises 0 right → (sides sig).Fits (s, (left, right)) }
    ensures others_do_not { (sig : Signature) (v : SidesOf sig) → (sides sig).Fits v → Rises 0 v.1.0 × Rises 0 v.1.1 }
{}

/// A value whose linear forms are in the normal form and whose names have 64 bits has a text.
#[tactic(auto, using(crate::proofs::ValueFits::normal_values_fit))]
pub fn values_with_texts()
    ensures normal { (v : Value) → IsNormalValue v → AreNames (names_in v) → (k : Close) (e : ℕ) → IsTrue (closers k.one k.two e) → (value k).Fits (v, e) }
{}

/// The same of whole states: a state has a text where each of its parts has one.
#[tactic(auto, using(crate::proofs::TextLaws::states_exact, crate::proofs::TextLaws::states_written, crate::proofs::TextLaws::states_fit))]
pub fn state_texts()
    ensures exact { (sig : Signature) → Exact (state sig) }
    ensures spelled { (sig : Signature) (s : Saturated) → (state sig).Fits s → (state sig).text s ≡ state_text sig s }
    ensures parts { (sig : Signature) (s : Saturated) → StateStands sig s → (state sig).Fits s }
{}

/// The same of whole journals.
#[tactic(auto, using(crate::proofs::TextLaws::stories_exact, crate::proofs::TextLaws::stories_written))]
pub fn story_texts()
    ensures exact { (sig : Signature) → Exact (story sig) }
    ensures spelled { (sig : Signature) (s : Story) → (story sig).Fits s → (story sig).text s ≡ story_text sig s }
{}

/// The same of widths with their journals.
#[tactic(auto, using(crate::proofs::TextLaws::numbers_exact, crate::proofs::TextLaws::numbers_written))]
pub fn number_texts()
    ensures exact { (sig : Signature) → Exact (number_code sig) }
    ensures spelled { (sig : Signature) (v : NumberText sig) → (number_code sig).Fits v → (number_code sig).text v ≡ number_text sig v.0 v.1 }
{}
