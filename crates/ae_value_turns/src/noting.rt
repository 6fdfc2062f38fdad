//! Noting `solve` lines.
ghost use Rattle.std.specs.Prelude.{◌≡◌, ◌++◌, [], ◌∷◌, OnOk, OnErr, Err};
ghost use Rattle.ae_journal.specs.Journals.{counted_in};
ghost use Rattle.ae_journal.specs.declared.answers.WideAt.{WideAt};
ghost use Rattle.ae_journal.specs.declared.lines.Line.TheVariants as line;
ghost use Rattle.ae_journal.specs.declared.lines.Oriented.TheVariants as oriented;
ghost use Rattle.ae_theory.specs.declared.theory.Fail.TheVariants.{Steps as OutOfSteps, Number};

use ae_journal::journal::{Journal, JournalFail};
use ae_journal::lines::{Line, Oriented};
use ae_num::forms::{Name, Value};
use ae_theory::theory::Fail;

/// Notes the line that gives a name a value. `Steps` comes exactly where as many counted lines stand as the limit allows. A refused line leaves the
/// journal as it was.
pub fn note_solution(journal: &mut Journal, name: Name, value: Value) -> Result<(), Fail>
    ensures ok { OnOk result (journal.new ≡ record journal.old { lines = journal.old.lines ++ line.Orient (oriented.Named name value) ∷ [] }) }
    ensures err { OnErr result (journal.new ≡ journal.old) }
    ensures steps { result ≡ Err OutOfSteps → counted_in journal.old.lines ≡ journal.old.limit }
    ensures number { (wide : WideAt) → result ≡ Err (Number wide) → ⊥ }
{
    match journal.note(Line::Orient(Oriented::Named { name, value })) {
        Ok(()) => Ok(()),
        Err(JournalFail::Full) => Err(Fail::Steps),
        Err(JournalFail::Memory(refused)) => Err(Fail::Memory(refused)),
    }
}
