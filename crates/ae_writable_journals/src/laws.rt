//! The law of journals that can be written. This function does nothing: its contract is a theorem.
ghost use Rattle.std.specs.Prelude.{ℕ};
ghost use Rattle.ae_core.specs.Signatures.{IsLawfulProblem};
ghost use Rattle.ae_core.specs.declared.problems.Problem.{Problem};
ghost use Rattle.ae_journal.specs.Legal.{IsLegalJournal};
ghost use Rattle.ae_journal.specs.declared.lines.Story.{Story};
ghost use Rattle.ae_writable.specs.Numbers.{HasLowestNumerals};
ghost use Rattle.ae_writable.specs.Writable.{IsWritableStory};

/// Where all numerals of a lawful problem are in lowest terms, they are so in each legal journal of a goal, rows and instances included; its names are well sorted or
/// predicates' applications, and the multisets of its rules and pairs are written rising.
pub fn legal_journals_are_writable()
    ensures { (p : Problem) (g bound : ℕ) (s : Story) → IsLawfulProblem p → HasLowestNumerals p → IsLegalJournal p g bound s → IsWritableStory p.signature s }
{}
