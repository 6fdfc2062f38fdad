//! Laws of searches that came to a limit. This function does nothing: its contract is a theorem.
ghost use Rattle.std.specs.Prelude.{ℕ, ◌≤◌, ◌≡◌, List};
ghost use Rattle.ae_block_constants.specs.Blocks.{AreApart};
ghost use Rattle.ae_block_constants.specs.declared.opened.Opened.{Opened};
ghost use Rattle.ae_core.specs.declared.problems.Problem.{Problem};
ghost use Rattle.ae_core.specs.declared.proofs.ClauseLine.{ClauseLine};
ghost use Rattle.ae_journal.specs.Answers.{IsAnswer};
ghost use Rattle.ae_journal.specs.Journals.{counted_in};
ghost use Rattle.ae_journal.specs.Licences.{IsLicensed};
ghost use Rattle.ae_journal.specs.Standing.{Setting};
ghost use Rattle.ae_journal.specs.declared.answers.Answer.TheVariants.{Steps, Number};
ghost use Rattle.ae_journal.specs.declared.answers.WideAt.{WideAt};
ghost use Rattle.ae_journal.specs.declared.lines.Line.{Line};
ghost use Rattle.ae_searching.specs.Searching.{IsLawfulSoFar};
ghost use Rattle.ae_searching.specs.Told.{IsToldIn};
ghost use Rattle.ae_stories.specs.Told.{told};
ghost use Rattle.ae_store.specs.Stores.{Stored, IsStore};

/// Where all lines of a search are lawful so far and no constant is of two blocks, the story of the search is the answer where the journal is full, and with a width
/// that its lines license where a number leaves the limits.
pub fn searches_are_told()
    ensures steps { (p : Problem) (g limit bound next : ℕ) (s : Stored) (opened : List Opened) (lines : List ClauseLine) (js : List Line) → IsStore s.signature s.nodes → AreApart next opened →
        IsLawfulSoFar p g bound s opened lines js → counted_in js ≡ limit → IsAnswer p g limit bound (Steps (told s js)) }
    ensures number { (p : Problem) (g limit bound next : ℕ) (s : Stored) (opened : List Opened) (lines : List ClauseLine) (js : List Line) (at : WideAt) → IsStore s.signature s.nodes → AreApart next opened →
        IsLawfulSoFar p g bound s opened lines js → counted_in js ≤ limit → ((x : Setting) → IsToldIn p g s opened x → IsLicensed x js at) → IsAnswer p g limit bound (Number (told s js) at) }
{}
