//! Laws of the stories of searches. This function does nothing: its contract is a theorem.
ghost use Rattle.std.specs.Prelude.{ℕ, ◌≤◌, List, []};
ghost use Rattle.ae_core.specs.declared.formulas.Formula.{Formula};
ghost use Rattle.ae_core.specs.declared.problems.Problem.{Problem};
ghost use Rattle.ae_journal.specs.Answers.{IsLegalWidth};
ghost use Rattle.ae_journal.specs.Journals.{counted_in};
ghost use Rattle.ae_journal.specs.Legal.{AreLegal, IsLegalJournal};
ghost use Rattle.ae_journal.specs.Licences.{IsLicensed};
ghost use Rattle.ae_journal.specs.declared.answers.WideAt.{WideAt};
ghost use Rattle.ae_journal.specs.declared.lines.Line.{Line};
ghost use Rattle.ae_reach.specs.Reach.{IsInReach};
ghost use Rattle.ae_store.specs.Stores.{Stored, IsStore};
ghost use Rattle.ae_stories.specs.Told.{told, told_setting};
ghost use Rattle.ae_theory.specs.Names.{IsNamedBy};

/// Where each name of a store is one of the goal's journal, and each line is legal after those before it, the story is a legal journal, whatever
/// constants the goal's block has; and so it is with a width that the lines license.
pub fn noted_lines_make_legal_stories()
    ensures legal { (p : Problem) (g : ℕ) (s : Stored) (fresh : Formula → ℕ) (js : List Line) (bound : ℕ) → IsInReach p g → IsStore s.signature s.nodes → IsNamedBy (told_setting p g s js fresh) s [] →
        AreLegal (told_setting p g s js fresh) bound [] js → IsLegalJournal p g bound (told s js) }
    ensures wide { (p : Problem) (g : ℕ) (s : Stored) (fresh : Formula → ℕ) (js : List Line) (bound limit : ℕ) (at : WideAt) → IsInReach p g → IsStore s.signature s.nodes → IsNamedBy (told_setting p g s js fresh) s [] →
        AreLegal (told_setting p g s js fresh) bound [] js → counted_in js ≤ limit → IsLicensed (told_setting p g s js fresh) js at → IsLegalWidth p g limit bound (told s js) at }
{}
