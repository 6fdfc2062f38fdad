//! Laws of the texts of journals and widths. These functions do nothing: each one's contract is a theorem.
ghost use Rattle.std.specs.Prelude.{ℕ, ◌≡◌, []};
ghost use Rattle.ae_codes.specs.Codes.{got};
ghost use Rattle.ae_core.specs.Signatures.{IsLawfulProblem};
ghost use Rattle.ae_core.specs.declared.problems.Problem.{Problem};
ghost use Rattle.ae_journal.specs.Answers.{IsLegalWidth};
ghost use Rattle.ae_journal.specs.Legal.{IsLegalJournal};
ghost use Rattle.ae_journal.specs.declared.answers.WideAt.{WideAt};
ghost use Rattle.ae_journal.specs.declared.lines.Story.{Story};
ghost use Rattle.ae_stategrammar.specs.Journals.{story};
ghost use Rattle.ae_stategrammar.specs.StateTexts.{story_text, number_text};
ghost use Rattle.ae_stategrammar.specs.Widths.{number_code};
ghost use Rattle.ae_legal_stories.specs.Writable.{IsStoryWithin, IsWidthWithin};

/// Each legal journal of a lawful problem has a text, where its names are well sorted and what it shows is within the limits, and what is written of it is
/// read back. Its legality gives the rest: its literals and clauses are closed, well sorted and without negations, its instances are of closed sorts
/// and terms, its values and rows are in the normal form, its rows are over listed names, and the symbols of its rules have the sorts that they take.
pub fn journals_have_texts()
    ensures legal { (p : Problem) (g bound : ℕ) (s : Story) → IsLawfulProblem p → IsLegalJournal p g bound s → IsStoryWithin p.signature s → (story p.signature).Fits s }
    ensures read_back { (p : Problem) (g bound : ℕ) (s : Story) → IsLawfulProblem p → IsLegalJournal p g bound s → IsStoryWithin p.signature s
        → (story p.signature).read (story_text p.signature s) ≡ got s [] }
{}

/// Each width that a legal journal licenses has a text with that journal, under the same conditions, and what is written of both is read back. Its legality gives
/// that its forms are in the normal form, that it has a key exactly where its step has one, and that the two numbers are within the limits.
pub fn widths_have_texts()
    ensures licensed { (p : Problem) (g limit bound : ℕ) (s : Story) (w : WideAt) → IsLawfulProblem p → IsLegalWidth p g limit bound s w → IsWidthWithin p.signature s w
        → (number_code p.signature).Fits (s, w) }
    ensures read_back { (p : Problem) (g limit bound : ℕ) (s : Story) (w : WideAt) → IsLawfulProblem p → IsLegalWidth p g limit bound s w → IsWidthWithin p.signature s w
        → (number_code p.signature).read (number_text p.signature s w) ≡ got (s, w) [] }
{}
