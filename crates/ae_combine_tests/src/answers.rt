//! What saturations come to.
ghost use Rattle.std.specs.Prelude.{[]};
ghost use Rattle.ae_combine.specs.declared.state.Mark.{Mark as MarkView};
ghost use Rattle.ae_combine.specs.Marks.{IsMarkOf};
ghost use Rattle.ae_state.specs.declared.holding.Holding.{Holding};
ghost use Rattle.ae_state.specs.Fitting.{FitsStore};
ghost use Rattle.ae_state.specs.Stepping.{IsInStep};

use crate::telling::{Answer, put_numbers};
use ae_combine::State;
use ae_journal::journal::Journal;
use ae_prooftext::put;
use ae_store::store::Store;
use ae_theory::theory::{Fail, Outcome, Theory};
use std::alloc::{AllocError, Global};

/// How a saturation ended.
fn answer_of(
    alloc: Global,
    store: &Store,
    state: &State,
    journal: &Journal,
    outcome: Result<Outcome, Fail>,
) -> Result<Answer, AllocError>
    requires fits { FitsStore state.now store.now }
{
    match outcome {
        Ok(Outcome::Complete) => {
            let system = state.system(alloc, store)?;
            Ok(Answer::Complete(system.rules.as_slice().len()))
        }
        Ok(Outcome::Conflict(_number)) => Ok(Answer::Contradictory(journal.counted())),
        Err(Fail::Steps) => Ok(Answer::Full),
        Err(Fail::Number(_wide)) => Ok(Answer::Wide),
        Err(Fail::Memory(refused)) => Err(refused),
    }
}

/// Saturates with a journal of its own, which has no line yet.
pub fn answer(
    alloc: Global,
    store: &Store,
    state: &mut State,
    limit: usize,
) -> Result<Answer, AllocError>
    requires fits { FitsStore state.old store.now }
    requires step { IsInStep state.old [] }
    ensures fits { FitsStore state.new store.now }
    ensures marks { (m : MarkView) (then : Holding) → IsMarkOf state.old m then → IsMarkOf state.new m then }
{
    let mut journal = Journal::new(alloc, limit)?;
    let outcome = state.saturate(alloc, store, &mut journal);
    answer_of(alloc, store, state, &journal, outcome)
}

/// Says how a saturation ended.
fn tell_answer(ended: Answer, out: &mut Vec<u8>) -> Result<(), AllocError> {
    match ended {
        Answer::Complete(rules) => put_numbers(out, b"  complete, rules", &[rules]),
        Answer::Contradictory(lines) => put_numbers(out, b"    lines", &[lines]),
        Answer::Full => put(out, b"  the journal is full\n"),
        Answer::Wide => put(out, b"  a number leaves the limits\n"),
    }
}

/// Saturates, and says what came of it.
pub fn answer_told(
    alloc: Global,
    store: &Store,
    state: &mut State,
    limit: usize,
    out: &mut Vec<u8>,
) -> Result<(), AllocError>
    requires fits { FitsStore state.old store.now }
    requires step { IsInStep state.old [] }
    ensures fits { FitsStore state.new store.now }
    ensures marks { (m : MarkView) (then : Holding) → IsMarkOf state.old m then → IsMarkOf state.new m then }
{
    let ended = answer(alloc, store, state, limit)?;
    tell_answer(ended, out)
}
