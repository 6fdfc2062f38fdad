//! A journal with a limit on its counted lines.
ghost use Rattle.std.specs.Prelude.{◌≡◌, ◌↔◌, ◌+◌, ◌-◌, ◌^◌, ◌<◌, ◌≤◌, ◌∷◌, ◌++◌, [], true, false, vec_len, vec_capacity, OnOk, OnErr, IfOk, Err, if◌then◌else◌};
ghost use Rattle.ae_journal.specs.Journals.{is_counted, counted_in};
ghost use Rattle.ae_journal.specs.declared.journal.JournalFail.TheVariants.{Full, Memory};

use crate::lines::Line;
use ae_core::lists::List;
use std::alloc::{AllocError, Global};
use std::marker::Model;

/// Why a line isn't noted.
#[derive(Debug, Drop, thiserror::Error)]
pub enum JournalFail {
    /// The line is counted, and as many counted lines stand as the limit allows.
    #[error("the limit on counted lines is reached")]
    Full,
    /// There was no memory for the line.
    #[error("no memory")]
    Memory(AllocError),
}

impl From<AllocError> for JournalFail {
    ghost use Rattle.std.specs.Prelude.{◌≡◌};
    ghost use Rattle.ae_journal.specs.declared.journal.JournalFail.TheVariants.{Memory};

    ghost from_gives = { λ e r. r ≡ Memory e };

    fn from(failed: AllocError) -> JournalFail {
        JournalFail::Memory(failed)
    }
}

/// The lines noted so far, and how many counted ones there may be.
#[derive(Drop)]
pub struct Journal {
    lines: Vec<Line>,
    counted: usize,
    limit: usize,
}

impl Model for Journal {
    ghost use Rattle.std.specs.Prelude.{◌≡◌, ◌+◌, ◌-◌, ◌≤◌, vec_len, vec_capacity};
    ghost use Rattle.std.specs.Coded.{codes};
    ghost use Rattle.ae_core.specs.contracts.formulas.Formula as formula;
    ghost use Rattle.ae_core.specs.contracts.terms.Term as term;
    ghost use Rattle.ae_core.specs.contracts.terms.Sort as sort;
    ghost use Rattle.ae_num.specs.contracts.forms.Value as value;
    ghost use Rattle.ae_journal.specs.Noted.{Noted};
    ghost use Rattle.ae_journal.specs.Journals.{counted_in};

    ghost Value = { Noted };

    ghost coded = { Prim.hlevel (codes, formula.the_row.coded, term.the_row.coded, sort.the_row.coded, value.the_row.coded) };

    ghost view = { λ j. record { lines = j.lines.items; limit = j.limit } };

    ghost invariant = { λ j. (j.counted ≡ counted_in j.lines.items) × (j.counted ≤ j.limit) × (vec_len j.lines + (j.limit - j.counted) ≤ vec_capacity j.lines) };
}

/// Whether a line counts against the limit: all do but `Drop` and `Back`.
fn counts(line: &Line) -> bool
    ensures { result ≡ is_counted line.now }
{
    match line {
        Line::Drop(_) => false,
        Line::Back(_) => false,
        Line::Decide(_) => true,
        Line::Orient(_) => true,
        Line::Pair { .. } => true,
        Line::Learn(_) => true,
        Line::TypeInstance { .. } => true,
        Line::TermInstance { .. } => true,
        Line::Combine { .. } => true,
    }
}

/// Makes room for one more line, beside that for the counted ones that may still come; a counted line is one of them.
fn make_room(
    lines: &mut Vec<Line>,
    counted: bool,
    so_far: usize,
    limit: usize,
) -> Result<(), JournalFail>
    requires reserved { vec_len lines.old + (limit - so_far) ≤ vec_capacity lines.old }
    requires within { so_far ≤ limit }
    ensures items { lines.new.items ≡ lines.old.items }
    ensures len { vec_len lines.new ≡ vec_len lines.old }
    ensures kept { vec_capacity lines.old ≤ vec_capacity lines.new }
    ensures room { OnOk result (vec_len lines.new + 1 + (limit - (so_far + (if counted then 1 else 0))) ≤ vec_capacity lines.new) }
    ensures more { OnOk result (so_far + (if counted then 1 else 0) ≤ limit) }
    ensures full { (result ≡ Err Full) ↔ ((counted ≡ true) × (so_far ≡ limit)) }
    ensures memory { (refused : AllocError) → result ≡ Err (Memory refused) → counted ≡ false }
{
    if counted {
        return if so_far == limit {
            Err(JournalFail::Full)
        } else {
            Ok(())
        };
    }
    let Some(room) = (limit - so_far).checked_add(1) else {
        return Err(JournalFail::Memory(AllocError));
    };
    match lines.reserve(room) {
        Ok(()) => Ok(()),
        Err(refused) => Err(JournalFail::Memory(refused)),
    }
}

/// The number of counted lines with one more line.
fn with_line(so_far: usize, counted: bool) -> usize
    requires { so_far + (if counted then 1 else 0) < 2 ^ 64 }
    ensures { result ≡ so_far + (if counted then 1 else 0) }
{
    if counted { so_far + 1 } else { so_far }
}

impl Journal {
    /// A journal without lines, which may hold `limit` counted ones and has room for so many.
    pub fn new(alloc: Global, limit: usize) -> Result<Journal, AllocError>
        ensures { IfOk result (λ j. j ≡ record { lines = []; limit = limit }) }
    {
        let lines = Vec::with_capacity(alloc, limit)?;
        Ok(Journal {
            lines,
            counted: 0,
            limit,
        })
    }

    /// Appends a line. `Full` comes exactly where the line is counted and as many counted lines stand as the limit allows.
    /// A counted line takes no memory beyond the room that `new` reserved: `Memory` comes only for a line that isn't counted.
    #[tactic(auto, using(crate::proofs::Counting::counted_push))]
    pub fn note(&mut self, line: Line) -> Result<(), JournalFail>
        ensures ok { OnOk result (self.new ≡ record self.old { lines = self.old.lines ++ line ∷ [] }) }
        // A refused line leaves the journal as it was.
        ensures err { OnErr result (self.new ≡ self.old) }
        ensures full { (result ≡ Err Full) ↔ ((is_counted line ≡ true) × (counted_in self.old.lines ≡ self.old.limit)) }
        ensures memory { (refused : AllocError) → result ≡ Err (Memory refused) → is_counted line ≡ false }
    {
        let counted = counts(&line);
        make_room(&mut self.lines, counted, self.counted, self.limit)?;
        self.lines.push_reserved(line);
        self.counted = with_line(self.counted, counted);
        Ok(())
    }

    /// The lines noted so far.
    pub fn lines(&self) -> &[Line]
        ensures { result.now ≡ self.now.lines }
    {
        self.lines.as_slice()
    }

    /// The lines noted, without the journal. It takes no memory.
    pub fn into_lines(self) -> List<Line>
        ensures { result ≡ self.lines }
    {
        List::from_vec(self.lines)
    }

    /// How many of them are counted.
    pub fn counted(&self) -> usize
        ensures count { result ≡ counted_in self.now.lines }
        ensures within { result ≤ self.now.limit }
    {
        self.counted
    }
}
