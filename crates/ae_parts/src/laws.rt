//! What holds of the texts of parts, as clauses.
ghost use Rattle.std.specs.Prelude.{ℕ, ◌≡◌, List};
ghost use Rattle.ae_codes.specs.Codes.{Exact};
ghost use Rattle.ae_core.specs.declared.problems.Signature.{Signature};
ghost use Rattle.ae_journal.specs.declared.answers.Answer.{Answer};
ghost use Rattle.ae_parts.specs.Codes.{parts_code};
ghost use Rattle.ae_parts.specs.Parts.{PartsStand, part_of, part_text, parts_text};
ghost use Rattle.ae_parts.specs.declared.parts.Part.{Part};
ghost use Rattle.ae_statetext.specs.AnswerTexts.{answer_text};

/// The parts of goals have one text, no such text begins another, and reading is exact: it gives the parts whose text stands there, and where there is none it stops
/// at the first byte that no text continues. Those of whose parts each has a text have one, and no others; it is their texts in order. What is written of a goal's answer
/// is the text of its part.
#[tactic(auto, using(crate::proofs::PartLaws::parts_exact, crate::proofs::PartLaws::parts_stand, crate::proofs::PartLaws::parts_fit, crate::proofs::PartLaws::parts_spelled, crate::proofs::PartLaws::answers_written))]
pub fn part_texts()
    ensures exact { (sig : Signature) (names : List (List ℕ)) → Exact (parts_code sig names) }
    ensures stand { (sig : Signature) (names : List (List ℕ)) (ps : List Part) → (parts_code sig names).Fits ps → PartsStand sig names ps }
    ensures fit { (sig : Signature) (names : List (List ℕ)) (ps : List Part) → PartsStand sig names ps → (parts_code sig names).Fits ps }
    ensures spelled { (sig : Signature) (names : List (List ℕ)) (ps : List Part) → (parts_code sig names).Fits ps → (parts_code sig names).text ps ≡ parts_text sig names ps }
    ensures written { (sig : Signature) (name : List ℕ) (a : Answer) → part_text sig name (part_of a) ≡ answer_text sig name a }
{}
