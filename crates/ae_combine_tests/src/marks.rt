//! A thousand marks, with an equation assumed after each, which are restored in the opposite order.
ghost use Rattle.std.specs.Prelude.{◌≡◌, ◌<◌, ◌≤◌, ◌+◌, ◌*◌, [], ℕ};
ghost use Rattle.std.specs.List.{AllByRecursion};
ghost use Rattle.ae_core.specs.Signatures.{IsLawful};
ghost use Rattle.ae_combine.specs.declared.state.Mark.{Mark as MarkView};
ghost use Rattle.ae_combine.specs.Marks.{IsMarkOf};
ghost use Rattle.ae_state.specs.declared.holding.Holding.{Holding};
ghost use Rattle.ae_state.specs.Fitting.{FitsStore};
ghost use Rattle.ae_state.specs.Stepping.{IsInStep};
ghost use Rattle.ae_combine_tests.specs.Marked.{IsMarkedAtFirst};

use crate::answers::{answer, answer_told};
use crate::equations::{EQUATIONS, Kind, assume_equation, assume_equations, enter_equations};
use crate::telling::put_numbers;
use ae_combine::{Mark, State};
use ae_core::lists::{List, at};
use ae_core::problems::Signature;
use ae_prooftext::put;
use ae_steps::Steps;
use ae_store::store::Store;
use ae_theory::theory::{Equalities, Theory};
use std::alloc::{AllocError, Global};
use std::marker::Brand;
use std::sync::ledger::{Blank, Ledger};

const LINES: usize = 10_000;

/// The mark that is restored last.
const MIDDLE: usize = 500;

/// So many equations are few.
const FEW: usize = 3;

/// Of so many marks one is completed anew.
const APART: usize = 250;

fn signature(alloc: Global) -> Signature
    ensures { IsLawful result }
{
    Signature {
        types: List::new(alloc),
        symbols: List::new(alloc),
    }
}

/// Puts a mark behind others, and assumes the equation of a number.
fn mark_one<L: Ledger>(
    alloc: Global,
    store: &Store,
    state: &mut State,
    marks: &mut Vec<Mark>,
    number: usize,
    steps: &mut Steps<L>,
) -> Result<(), AllocError>
    requires fits { FitsStore state.old store.now }
    requires step { IsInStep state.old [] }
    requires marks { AllByRecursion (IsMarkedAtFirst state.old) marks.old.items }
    ensures fits { FitsStore state.new store.now }
    ensures step { IsInStep state.new [] }
    ensures marks { AllByRecursion (IsMarkedAtFirst state.new) marks.new.items }
    ensures steps { steps.new ≤ steps.old + 16 }
{
    let mark = state.mark(steps);
    marks.push(mark)?;
    assume_equation(alloc, store, state, Kind::Plain, number)
}

/// Marks, and assumes an equation, many times.
fn mark_all<L: Ledger>(
    alloc: Global,
    store: &Store,
    state: &mut State,
    marks: &mut Vec<Mark>,
    steps: &mut Steps<L>,
) -> Result<(), AllocError>
    requires fits { FitsStore state.old store.now }
    requires step { IsInStep state.old [] }
    requires marks { AllByRecursion (IsMarkedAtFirst state.old) marks.old.items }
    ensures fits { FitsStore state.new store.now }
    ensures marks { AllByRecursion (IsMarkedAtFirst state.new) marks.new.items }
    ensures steps { steps.new ≤ steps.old + 16 * 1000 }
{
    for number in 0..EQUATIONS {
        mark_one(alloc, store, state, marks, number, steps)?;
    }
    Ok(())
}

/// Goes back to a mark, and completes where that is asked.
fn back_to<L: Ledger>(
    alloc: Global,
    store: &Store,
    state: &mut State,
    mark: &Mark,
    completes: bool,
    steps: &mut Steps<L>,
) -> Result<(), AllocError>
    requires fits { FitsStore state.old store.now }
    requires mark { IsMarkedAtFirst state.old mark.now }
    ensures fits { FitsStore state.new store.now }
    ensures marks { (m : MarkView) (then : Holding) → IsMarkOf state.old m then → IsMarkOf state.new m then }
    ensures steps { steps.new ≤ steps.old + 16 }
{
    state.restore(mark, steps);
    if completes {
        let _ended = answer(alloc, store, state, LINES)?;
    }
    Ok(())
}

/// Goes back to the mark at a place, and completes at some of them.
fn back_at<L: Ledger>(
    alloc: Global,
    store: &Store,
    state: &mut State,
    marks: &[Mark],
    place: usize,
    steps: &mut Steps<L>,
) -> Result<(), AllocError>
    requires fits { FitsStore state.old store.now }
    requires marks { AllByRecursion (IsMarkedAtFirst state.old) marks.now }
    ensures fits { FitsStore state.new store.now }
    ensures marks { AllByRecursion (IsMarkedAtFirst state.new) marks.now }
    ensures steps { steps.new ≤ steps.old + 16 }
{
    let completes = place % APART == 0;
    match at(marks, place) {
        Some(mark) => back_to(alloc, store, state, mark, completes, steps),
        None => Ok(()),
    }
}

/// Goes back to each mark, the last one first, and then to the one in the middle.
fn back_all<L: Ledger>(
    alloc: Global,
    store: &Store,
    state: &mut State,
    marks: &[Mark],
    steps: &mut Steps<L>,
) -> Result<(), AllocError>
    requires fits { FitsStore state.old store.now }
    requires marks { AllByRecursion (IsMarkedAtFirst state.old) marks.now }
    ensures fits { FitsStore state.new store.now }
{
    for place in (0..marks.len()).rev() {
        back_at(alloc, store, state, marks, place, steps)?;
    }
    back_at(alloc, store, state, marks, MIDDLE, steps)
}

/// How many pairs of names are the same in one state and not in the other.
fn different_pairs(store: &Store, one: &State, other: &State) -> usize {
    let mut count: usize = 0;
    for left in 0..store.len() {
        for right in 0..left {
            if one.same(left, right) != other.same(left, right) {
                count = count.saturating_add(1);
            }
        }
    }
    count
}

/// How many names are the same as an earlier one.
fn same_names(store: &Store, state: &State) -> usize {
    let mut count: usize = 0;
    for left in 0..store.len() {
        for right in 0..left {
            if state.same(left, right) {
                count = count.saturating_add(1);
                break;
            }
        }
    }
    count
}

/// Assumes in a state anew as many equations as were assumed at the mark in the middle, and compares it with another.
fn tell_compared(
    alloc: Global,
    store: &Store,
    state: &State,
    anew: &mut State,
    out: &mut Vec<u8>,
) -> Result<(), AllocError>
    requires fits { FitsStore anew.old store.now }
    requires step { IsInStep anew.old [] }
{
    assume_equations(alloc, store, anew, Kind::Plain, MIDDLE)?;
    answer_told(alloc, store, anew, LINES, out)?;
    let same = same_names(store, anew);
    let differ = different_pairs(store, state, anew);
    put_numbers(out, b"  names that are the same as an earlier one", &[same])?;
    put_numbers(out, b"  pairs that differ", &[differ])
}

/// Compares a state with one anew.
fn tell_anew(
    alloc: Global,
    signature: &Signature,
    store: &Store,
    state: &State,
    out: &mut Vec<u8>,
) -> Result<(), AllocError>
    requires { signature.now ≡ store.now.signature }
{
    let mut anew = State::new(alloc, signature)?;
    tell_compared(alloc, store, state, &mut anew, out)
}

/// Makes the marks, goes back to them, and completes at the one in the middle.
fn mark_and_back<L: Ledger>(
    alloc: Global,
    store: &Store,
    state: &mut State,
    blank: Blank,
) -> Result<(), AllocError>
    requires brand { blank.name ≡ L.name }
    requires parts { blank.parts ≡ L.parts }
    requires some { 0 < blank.parts }
    requires fits { FitsStore state.old store.now }
    requires step { IsInStep state.old [] }
{
    let mut steps = Steps::<L>::new(blank);
    let mut marks = Vec::new(alloc);
    mark_all(alloc, store, state, &mut marks, &mut steps)?;
    back_all(alloc, store, state, marks.as_slice(), &mut steps)
}

/// Puts what comes of a state that has assumed nothing.
fn tell_thousand(
    alloc: Global,
    signature: &Signature,
    store: &Store,
    state: &mut State,
    out: &mut Vec<u8>,
) -> Result<(), AllocError>
    requires same { signature.now ≡ store.now.signature }
    requires fits { FitsStore state.old store.now }
    requires step { IsInStep state.old [] }
{
    mark_and_back::<Brand>(alloc, store, state, Blank::new(1))?;
    tell_anew(alloc, signature, store, state, out)
}

/// Puts what comes of a few equations, with so many lines; then what comes of none, at a mark from before.
fn tell_few<L: Ledger>(
    alloc: Global,
    store: &Store,
    state: &mut State,
    kind: Kind,
    limit: usize,
    out: &mut Vec<u8>,
    blank: Blank,
) -> Result<(), AllocError>
    requires brand { blank.name ≡ L.name }
    requires parts { blank.parts ≡ L.parts }
    requires some { 0 < blank.parts }
    requires fits { FitsStore state.old store.now }
    requires step { IsInStep state.old [] }
{
    let mut steps = Steps::<L>::new(blank);
    let mark = state.mark(&mut steps);
    assume_equations(alloc, store, state, kind, FEW)?;
    answer_told(alloc, store, state, limit, out)?;
    state.restore(&mark, &mut steps);
    answer_told(alloc, store, state, limit, out)
}

/// Puts what comes of a store of the constants.
fn tell_marked(
    alloc: Global,
    signature: &Signature,
    store: &Store,
    out: &mut Vec<u8>,
) -> Result<(), AllocError>
    requires { signature.now ≡ store.now.signature }
{
    let mut state = State::new(alloc, signature)?;
    tell_thousand(alloc, signature, store, &mut state, out)
}

/// Puts what comes of a few equations in a state anew.
fn tell_refused(
    alloc: Global,
    signature: &Signature,
    store: &Store,
    kind: Kind,
    limit: usize,
    out: &mut Vec<u8>,
) -> Result<(), AllocError>
    requires { signature.now ≡ store.now.signature }
{
    let mut state = State::new(alloc, signature)?;
    tell_few::<Brand>(alloc, store, &mut state, kind, limit, out, Blank::new(1))
}

/// Puts what comes of a thousand marks.
pub fn tell_marks(alloc: Global, out: &mut Vec<u8>) -> Result<(), AllocError> {
    put(out, b"a thousand marks\n")?;
    let signature = signature(alloc);
    let mut store = Store::new(alloc, &signature)?;
    enter_equations(alloc, &mut store, &signature, Kind::Plain, EQUATIONS)?;
    tell_marked(alloc, &signature, &store, out)
}

/// Puts what comes of a few equations, and of none after them.
pub fn tell_refusals(
    alloc: Global,
    kind: Kind,
    limit: usize,
    out: &mut Vec<u8>,
) -> Result<(), AllocError> {
    put(out, b"a refusal, and a mark from before\n")?;
    let signature = signature(alloc);
    let mut store = Store::new(alloc, &signature)?;
    enter_equations(alloc, &mut store, &signature, kind, FEW)?;
    tell_refused(alloc, &signature, &store, kind, limit, out)
}
