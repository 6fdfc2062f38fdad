//! Laws of the stories of searches. This function does nothing: its contract is a theorem.
ghost use Rattle.std.specs.Prelude.{ℕ, ◌≤◌, ◌≡◌, List};
ghost use Rattle.ae_block_constants.specs.Blocks.{AreApart};
ghost use Rattle.ae_block_constants.specs.declared.opened.Opened.{Opened};
ghost use Rattle.ae_core.specs.declared.problems.Problem.{Problem};
ghost use Rattle.ae_journal.specs.Answers.{IsAnswer, IsLegalWidth};
ghost use Rattle.ae_journal.specs.Journals.{counted_in};
ghost use Rattle.ae_journal.specs.Legal.{IsLegalJournal};
ghost use Rattle.ae_journal.specs.declared.answers.Answer.TheVariants.{Steps, Number};
ghost use Rattle.ae_journal.specs.declared.answers.WideAt.{WideAt};
ghost use Rattle.ae_journal.specs.declared.lines.Line.{Line};
ghost use Rattle.ae_search_stories.specs.Stopped.{IsLegalHowever, IsLicensedHowever};
ghost use Rattle.ae_stories.specs.Told.{told};
ghost use Rattle.ae_store.specs.Stores.{Stored, IsStore};

/// Where the lines of a search are legal whatever constants the blocks have that weren't opened, its story is a legal journal: a choice of constants is
/// left in which no constant is of two blocks.
pub fn stopped_searches_are_told()
    ensures legal { (p : Problem) (g bound next : ℕ) (s : Stored) (opened : List Opened) (js : List Line) → IsStore s.signature s.nodes → AreApart next opened →
        IsLegalHowever p g bound s opened js → IsLegalJournal p g bound (told s js) }
    // So it is with a width that the lines license whatever these constants are.
    ensures wide { (p : Problem) (g limit bound next : ℕ) (s : Stored) (opened : List Opened) (js : List Line) (at : WideAt) → IsStore s.signature s.nodes → AreApart next opened →
        IsLegalHowever p g bound s opened js → counted_in js ≤ limit → IsLicensedHowever p g s opened js at → IsLegalWidth p g limit bound (told s js) at }
    // These are the answers of a search that came to a limit.
    ensures steps { (p : Problem) (g limit bound next : ℕ) (s : Stored) (opened : List Opened) (js : List Line) → IsStore s.signature s.nodes → AreApart next opened →
        IsLegalHowever p g bound s opened js → counted_in js ≡ limit → IsAnswer p g limit bound (Steps (told s js)) }
    ensures number { (p : Problem) (g limit bound next : ℕ) (s : Stored) (opened : List Opened) (js : List Line) (at : WideAt) → IsStore s.signature s.nodes → AreApart next opened →
        IsLegalHowever p g bound s opened js → counted_in js ≤ limit → IsLicensedHowever p g s opened js at → IsAnswer p g limit bound (Number (told s js) at) }
{}
