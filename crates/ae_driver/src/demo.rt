//! The answers to the demo's goals, each proof checked, and the line that counts them.

ghost use Rattle.std.specs.Prelude.{◌≡◌, ◌≤◌, ◌<◌, ◌++◌, codes, decimal, length, string_bytes, IfOk, OnOk};
ghost use Rattle.ae_gen.specs.Demo as gen;
ghost use Rattle.ae_io.specs.Moves.{Rose};
ghost use Rattle.ae_core.specs.Signatures.{IsLawfulProblem};
ghost use Rattle.ae_goal_parts.specs.Inner.Items.{IsGoalNamed};
ghost use Rattle.ae_printed.specs.ReadBack.{IsReadBack};
ghost use Rattle.ae_writable.specs.Numbers.{HasLowestNumerals};
ghost use Rattle.ae_driver.specs.Demo.{counts_line};
ghost use Rattle.ae_driver.specs.Problems.{IsProblemOf};
ghost use Rattle.ae_driver.specs.Inner.Endings.{IsPrinted};
ghost use Rattle.ae_driver.specs.Inner.Counting as spec;
ghost use Rattle.ae_driver.specs.Inner.Counting.{CountedEnds, CountingEnds, DemoEnds, HasRoom, IsCountedGoal, IsCountedIn};
ghost use Rattle.ae_driver.specs.declared.program.Status.TheVariants.{WriteFault, Memory};

use crate::checking::verdict_of;
use crate::program::Status;
use crate::texts::{NotRead, read_problem};
use ae_base::lists::List;
use ae_base::words::Word;
use ae_cli::options::Options;
use ae_core::problems::{Item, Problem, Signature};
use ae_elaborate::release_problem;
use ae_gen::demo_text;
use ae_goal_parts::item_part;
use ae_io::{Sink, write_all};
use ae_lowest_numerals::typed_problems_have_lowest_numerals;
use ae_parts::{Part, read_parts};
use ae_search_options::picks::Picks;
use ae_verdicts::lines::Verdict;
use std::alloc::{AllocError, Global};

/// How many parts of an output are of each kind, and how many of their proofs the check accepts.
#[derive(Clone, Copy, Debug, PartialEq, Eq)]
pub struct Counts {
    /// Proofs.
    pub valid: usize,
    /// Saturated states.
    pub unknown: usize,
    /// Journals of as many lines as were allowed.
    pub steps: usize,
    /// Steps that leave the limits of numbers.
    pub number: usize,
    /// Accepted proofs.
    pub checked: usize,
}

// Counts one part more by its kind.
fn count_kind(counts: &mut Counts, part: &Part)
    requires { HasRoom counts.old }
    ensures { counts.new ≡ spec.with_kind part.now counts.old }
{
    match part {
        Part::Valid(_) => counts.valid += 1,
        Part::Unknown(_) => counts.unknown += 1,
        Part::Steps { .. } => counts.steps += 1,
        Part::Number { .. } => counts.number += 1,
    }
}

// Counts one verdict more.
fn count_verdict(counts: &mut Counts, verdict: Verdict)
    requires { counts.old.checked < 18446744073709551615 }
    ensures { counts.new ≡ spec.with_verdict verdict counts.old }
{
    match verdict {
        Verdict::Accepted => counts.checked += 1,
        Verdict::RefusedAxioms | Verdict::Refused(_) | Verdict::Number | Verdict::Unchecked => {}
    }
}

// The one part that a text is of the goal of this name. The text is of a part, so that nothing but memory can be lacking.
fn part_of(
    alloc: Global,
    signature: &Signature,
    name: &Word,
    text: &[u8],
) -> Result<List<Part>, AllocError>
    requires { spec.IsOnePart signature.now name.now text.now }
    ensures { IfOk result (spec.AreOnePart signature.now name.now text.now) }
{
    let mut names = List::new(alloc);
    names.push(name.copy(alloc)?)?;
    match read_parts(alloc, signature, names.as_slice(), text) {
        Ok(parts) => Ok(parts),
        Err(_) => Err(AllocError),
    }
}

// Checks a part of the goal at this place, and counts it.
fn count_part(
    alloc: Global,
    problem: &Problem,
    place: usize,
    part: &Part,
    counts: &mut Counts,
) -> Result<(), AllocError>
    requires { HasRoom counts.old }
    ensures { OnOk result (spec.IsCountedPart problem.now place part.now counts.old counts.new) }
{
    let found = verdict_of(alloc, problem, place, part)?;
    count_kind(counts, part);
    count_verdict(counts, found);
    Ok(())
}

// Reads the text that is printed for the goal of this name at this place, checks it, and counts it.
fn count_goal(
    alloc: Global,
    problem: &Problem,
    place: usize,
    name: &Word,
    text: &[u8],
    counts: &mut Counts,
) -> Result<(), AllocError>
    requires named { IsGoalNamed problem.now place name.now }
    requires printed { IsReadBack problem.now place text.now }
    requires room { HasRoom counts.old }
    ensures { OnOk result (IsCountedGoal problem.now place text.now counts.old counts.new) }
{
    let parts = part_of(alloc, &problem.signature, name, text)?;
    let parts = parts.as_slice();
    count_part(alloc, problem, place, &parts[0], counts)
}

// The same for an item, of which nothing is counted where it is an axiom.
fn count_item(
    alloc: Global,
    problem: &Problem,
    place: usize,
    text: &[u8],
    counts: &mut Counts,
) -> Result<(), AllocError>
    requires place { place < length problem.now.items }
    requires printed { IsPrinted problem.now place text.now }
    requires room { HasRoom counts.old }
    ensures { OnOk result (IsCountedIn problem.now place text.now counts.old counts.new) }
{
    let items = problem.items.as_slice();
    match &items[place] {
        Item::Axiom { .. } => Ok(()),
        Item::Goal { name, .. } => count_goal(alloc, problem, place, name, text, counts),
    }
}

// Counts what is printed for an item, and writes it.
fn put_item<K: Sink>(
    alloc: Global,
    problem: &Problem,
    place: usize,
    text: &[u8],
    counts: &mut Counts,
    sink: &mut K,
) -> Status
    requires place { place < length problem.now.items }
    requires printed { IsPrinted problem.now place text.now }
    requires room { HasRoom counts.old }
    ensures ends { spec.PutEnds problem.now place text.now counts.old counts.new (K.written sink.old) (K.written sink.new) result }
    ensures memory { result ≡ Memory → sink.new ≡ sink.old }
    ensures write_fault { result ≡ WriteFault → Rose (K.faults sink.old) (K.faults sink.new) }
    ensures later { K.faults sink.old ≤ K.faults sink.new }
{
    match count_item(alloc, problem, place, text, counts) {
        Ok(()) => match write_all(sink, text) {
            Ok(()) => Status::Done,
            Err(_) => Status::WriteFault,
        },
        Err(_) => Status::Memory,
    }
}

// Answers one item, and counts its part: writes nothing for an axiom.
fn answer_counted<K: Sink>(
    alloc: Global,
    problem: &Problem,
    place: usize,
    picks: &Picks,
    asked: Options,
    counts: &mut Counts,
    sink: &mut K,
) -> Status
    requires lawful { IsLawfulProblem problem.now }
    requires lowest { HasLowestNumerals problem.now }
    requires place { place < length problem.now.items }
    requires room { HasRoom counts.old }
    requires way { asked.which < 3 }
    requires least { 1 ≤ asked.limits.steps }
    requires most { asked.limits.steps ≤ 1000000 }
    ensures ends { CountedEnds problem.now asked.limits place counts.old counts.new (K.written sink.old) (K.written sink.new) result }
    ensures memory { result ≡ Memory → sink.new ≡ sink.old }
    ensures write_fault { result ≡ WriteFault → Rose (K.faults sink.old) (K.faults sink.new) }
    ensures later { K.faults sink.old ≤ K.faults sink.new }
{
    match item_part(alloc, problem, place, picks, asked.which, &asked.limits) {
        Ok(part) => put_item(alloc, problem, place, part.as_slice(), counts, sink),
        Err(_) => Status::Memory,
    }
}

// Answers the goals of a problem in order, and counts their parts.
fn answer_all<K: Sink>(
    alloc: Global,
    problem: &Problem,
    picks: &Picks,
    asked: Options,
    counts: &mut Counts,
    sink: &mut K,
) -> Status
    requires lawful { IsLawfulProblem problem.now }
    requires lowest { HasLowestNumerals problem.now }
    requires none { counts.old ≡ spec.no_counts }
    requires way { asked.which < 3 }
    requires least { 1 ≤ asked.limits.steps }
    requires most { asked.limits.steps ≤ 1000000 }
    ensures ends { CountingEnds problem.now asked.limits counts.new (K.written sink.old) (K.written sink.new) result }
    ensures write_fault { result ≡ WriteFault → Rose (K.faults sink.old) (K.faults sink.new) }
    ensures later { K.faults sink.old ≤ K.faults sink.new }
{
    for place in 0..problem.items.len() {
        match answer_counted(alloc, problem, place, picks, asked, counts, sink) {
            Status::Done => {}
            stopped => return stopped,
        }
    }
    Status::Done
}

// Puts the first half of the last line at the end.
fn put_answered(
    out: &mut String,
    goals: u32,
    valid: usize,
    unknown: usize,
) -> Result<(), AllocError>
    ensures { OnOk result (string_bytes out.new ≡ string_bytes out.old ++ codes "demo " ++ decimal goals ++ codes " valid " ++ decimal valid ++ codes " unknown " ++ decimal unknown) }
{
    write!(out, "demo {goals} valid {valid} unknown {unknown}")
}

// Puts the second half of the last line at the end.
fn put_stopped(
    out: &mut String,
    steps: usize,
    number: usize,
    checked: usize,
) -> Result<(), AllocError>
    ensures { OnOk result (string_bytes out.new ≡ string_bytes out.old ++ codes " steps " ++ decimal steps ++ codes " number " ++ decimal number ++ codes " checked " ++ decimal checked ++ codes "\n") }
{
    write!(out, " steps {steps} number {number} checked {checked}\n")
}

// Puts the last line of the demo at the end.
#[tactic(auto, unfolding(crate::specs::Demo::counts_line))]
fn put_counts(out: &mut String, goals: u32, counts: &Counts) -> Result<(), AllocError>
    ensures { OnOk result (string_bytes out.new ≡ string_bytes out.old ++ counts_line goals counts.now) }
{
    put_answered(out, goals, counts.valid, counts.unknown)?;
    put_stopped(out, counts.steps, counts.number, counts.checked)
}

// The last line of the demo.
fn line_of(alloc: Global, goals: u32, counts: &Counts) -> Result<Vec<u8>, AllocError>
    ensures { IfOk result (λ line. line.items ≡ counts_line goals counts.now) }
{
    let mut line = String::new(alloc);
    put_counts(&mut line, goals, counts)?;
    Ok(line.into_bytes())
}

// Writes the last line, behind the parts.
fn tell_counts<K: Sink>(alloc: Global, goals: u32, counts: &Counts, sink: &mut K) -> Status
    ensures ends { spec.LineEnds goals counts.now (K.written sink.old) (K.written sink.new) result }
    ensures memory { result ≡ Memory → sink.new ≡ sink.old }
    ensures write_fault { result ≡ WriteFault → Rose (K.faults sink.old) (K.faults sink.new) }
{
    match line_of(alloc, goals, counts) {
        Ok(line) => match write_all(sink, line.as_slice()) {
            Ok(()) => Status::Done,
            Err(_) => Status::WriteFault,
        },
        Err(_) => Status::Memory,
    }
}

// Answers the goals of the demo's problem, and ends by the last line.
fn answer_and_tell<K: Sink>(
    alloc: Global,
    goals: u32,
    problem: &Problem,
    picks: &Picks,
    asked: Options,
    sink: &mut K,
) -> Status
    requires problem { IsProblemOf (gen.demo_text goals) problem.now }
    requires lawful { IsLawfulProblem problem.now }
    requires lowest { HasLowestNumerals problem.now }
    requires way { asked.which < 3 }
    requires least { 1 ≤ asked.limits.steps }
    requires most { asked.limits.steps ≤ 1000000 }
    ensures ends { DemoEnds asked.limits goals (K.written sink.old) (K.written sink.new) result }
    ensures write_fault { result ≡ WriteFault → Rose (K.faults sink.old) (K.faults sink.new) }
{
    let mut counts = Counts {
        valid: 0,
        unknown: 0,
        steps: 0,
        number: 0,
        checked: 0,
    };
    match answer_all(alloc, problem, picks, asked, &mut counts, sink) {
        Status::Done => tell_counts(alloc, goals, &counts, sink),
        stopped => stopped,
    }
}

// Answers the demo's text, which has a problem.
fn answer_text<K: Sink>(
    alloc: Global,
    goals: u32,
    text: &[u8],
    picks: &Picks,
    asked: Options,
    sink: &mut K,
) -> Status
    requires text { text.now ≡ gen.demo_text goals }
    requires way { asked.which < 3 }
    requires least { 1 ≤ asked.limits.steps }
    requires most { asked.limits.steps ≤ 1000000 }
    ensures ends { DemoEnds asked.limits goals (K.written sink.old) (K.written sink.new) result }
    ensures write_fault { result ≡ WriteFault → Rose (K.faults sink.old) (K.faults sink.new) }
{
    typed_problems_have_lowest_numerals();
    match read_problem(alloc, text) {
        Ok(problem) => {
            let status = answer_and_tell(alloc, goals, &problem, picks, asked, sink);
            release_problem(alloc, problem);
            status
        }
        Err(NotRead::Memory) => Status::Memory,
        Err(NotRead::Refused(_)) => unreachable!(),
    }
}

/// Makes the text of so many goals of the program's own, answers it as the text of a source is answered, checks each proof that is
/// printed, and ends by a line with the number of the answers of each kind and of the accepted proofs.
pub fn answer_demo<K: Sink>(
    alloc: Global,
    goals: u32,
    picks: &Picks,
    asked: Options,
    sink: &mut K,
) -> Status
    requires way { asked.which < 3 }
    requires least { 1 ≤ asked.limits.steps }
    requires most { asked.limits.steps ≤ 1000000 }
    ensures ends { DemoEnds asked.limits goals (K.written sink.old) (K.written sink.new) result }
    ensures write_fault { result ≡ WriteFault → Rose (K.faults sink.old) (K.faults sink.new) }
{
    match demo_text(alloc, goals) {
        Ok(text) => answer_text(alloc, goals, text.as_slice(), picks, asked, sink),
        Err(_) => Status::Memory,
    }
}
