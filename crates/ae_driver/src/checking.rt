//! The answer to an input that is to be checked.

ghost use Rattle.std.specs.Prelude.{◌≡◌, ◌≢◌, ◌≤◌, ◌+◌, drop, length, take, IfOk, Some};
ghost use Rattle.ae_io.specs.Moves.{Rose};
ghost use Rattle.ae_printed.specs.ReadBack.{proof_in};
ghost use Rattle.ae_proofreader.specs.Whole.{StandsIn};
ghost use Rattle.ae_readers.specs.declared.fault.Fault.TheVariants.{Memory as NoMemoryForParts};
ghost use Rattle.ae_report.specs.declared.refusal.Refusal.TheVariants.{Proof as WrongParts};
ghost use Rattle.ae_separator.specs.Separators.{IsParted};
ghost use Rattle.ae_verdicts.specs.Verdicts.{IsVerdict};
ghost use Rattle.ae_driver.specs.Checking as spec;
ghost use Rattle.ae_driver.specs.Inner.Endings.{InputEnds, IsNotRead, IsVerdictLine, LineEnds, LinesEnd};
ghost use Rattle.ae_driver.specs.Problems.{IsProblemOf};
ghost use Rattle.ae_driver.specs.declared.reasons.Reason.TheVariants.{Plain};
ghost use Rattle.ae_driver.specs.declared.program.Status.TheVariants.{WriteFault, Memory as NoMemory};

use crate::goals::{GoalPlace, goals_of, names_of};
use crate::program::{Status, refuse};
use crate::reasons::Reason;
use crate::texts::{NotRead, read_problem};
use ae_base::words::Word;
use ae_core::problems::Problem;
use ae_elaborate::release_problem;
use ae_io::{Sink, write_all};
use ae_parts::{Part, read_parts};
use ae_readers::Fault;
use ae_report::Refusal;
use ae_separator::{Parted, parting};
use ae_verdicts::checking::verdict;
use ae_verdicts::lines::{Verdict, verdict_line};
use std::alloc::{AllocError, Global};

/// What a part is worth as a proof of the goal at this place.
pub(crate) fn verdict_of(
    alloc: Global,
    problem: &Problem,
    goal: usize,
    part: &Part,
) -> Result<Verdict, AllocError>
    ensures { IfOk result (IsVerdict problem.now goal (proof_in part.now)) }
{
    match part {
        Part::Valid(text) => verdict(alloc, problem, goal, text),
        Part::Unknown(_) | Part::Steps { .. } | Part::Number { .. } => Ok(Verdict::Unchecked),
    }
}

// The line that says what a goal's part is worth.
fn line_of(
    alloc: Global,
    problem: &Problem,
    goal: &GoalPlace,
    part: &Part,
) -> Result<Vec<u8>, AllocError>
    ensures { IfOk result (λ line. IsVerdictLine problem.now goal.now part.now line.items) }
{
    let found = verdict_of(alloc, problem, goal.place, part)?;
    verdict_line(alloc, goal.name.as_str(), found)
}

// Writes the line of one goal.
fn write_line<K: Sink>(
    alloc: Global,
    problem: &Problem,
    goal: &GoalPlace,
    part: &Part,
    sink: &mut K,
) -> Status
    ensures ends { LineEnds problem.now goal.now part.now (K.written sink.old) (K.written sink.new) result }
    ensures memory { result ≡ NoMemory → sink.new ≡ sink.old }
    ensures write_fault { result ≡ WriteFault → Rose (K.faults sink.old) (K.faults sink.new) }
    ensures later { K.faults sink.old ≤ K.faults sink.new }
{
    match line_of(alloc, problem, goal, part) {
        Ok(line) => match write_all(sink, line.as_slice()) {
            Ok(()) => Status::Done,
            Err(_) => Status::WriteFault,
        },
        Err(_) => Status::Memory,
    }
}

// Writes the lines of goals, in order.
fn write_lines<K: Sink>(
    alloc: Global,
    problem: &Problem,
    goals: &[GoalPlace],
    parts: &[Part],
    sink: &mut K,
) -> Status
    requires { length parts.now ≡ length goals.now }
    ensures ends { LinesEnd problem.now goals.now parts.now (K.written sink.old) (K.written sink.new) result }
    ensures write_fault { result ≡ WriteFault → Rose (K.faults sink.old) (K.faults sink.new) }
{
    for n in 0..goals.len() {
        match write_line(alloc, problem, &goals[n], &parts[n], sink) {
            Status::Done => {}
            stopped => return stopped,
        }
    }
    Status::Done
}

// The place in an input of a place of the text that begins there at `begin`.
fn place_in(input: &[u8], begin: usize, place: usize) -> usize
    requires begins { begin ≤ length input.now }
    requires stands { place ≤ length (drop begin input.now) }
    ensures { result ≡ begin + place }
{
    let text = &input[begin..];
    input.len() - (text.len() - place)
}

// A fault of the text that begins at `begin` of an input, by its place in the input.
fn moved(input: &[u8], begin: usize, fault: Fault) -> Fault
    requires begins { begin ≤ length input.now }
    requires stands { StandsIn (drop begin input.now) fault }
    ensures { result ≡ spec.moved begin fault }
{
    match fault {
        Fault::At(place) => Fault::At(place_in(input, begin, place)),
        Fault::WideNumber(place) => Fault::WideNumber(place_in(input, begin, place)),
        Fault::Memory => Fault::Memory,
    }
}

// Answers an input for whose parts, which begin at `begin`, this fault was told.
fn refuse_parts<K: Sink>(
    alloc: Global,
    input: &[u8],
    begin: usize,
    fault: Fault,
    sink: &mut K,
) -> Status
    requires begins { begin ≤ length input.now }
    requires stands { StandsIn (drop begin input.now) fault }
    requires refused { fault ≢ NoMemoryForParts → spec.IsRefusedInput input.now (Plain (WrongParts (spec.moved begin fault))) }
    ensures ends { InputEnds input.now (K.written sink.old) (K.written sink.new) result }
    ensures write_fault { result ≡ WriteFault → Rose (K.faults sink.old) (K.faults sink.new) }
{
    match fault {
        Fault::Memory => Status::Memory,
        _ => {
            let there = moved(input, begin, fault);
            refuse(alloc, input, &Reason::Plain(Refusal::Proof(there)), sink)
        }
    }
}

// Checks the parts that stand behind the separator, of these goals of the problem before it, which have these names.
fn check_against<K: Sink>(
    alloc: Global,
    input: &[u8],
    parted: Parted,
    problem: &Problem,
    goals: &[GoalPlace],
    names: &[Word],
    sink: &mut K,
) -> Status
    requires parted { IsParted input.now (take parted.before input.now) (drop parted.after input.now) }
    requires within { parted.after ≤ length input.now }
    requires problem { IsProblemOf (take parted.before input.now) problem.now }
    requires goals { goals.now ≡ spec.goals_of problem.now }
    requires names { names.now ≡ spec.names_of goals.now }
    ensures ends { InputEnds input.now (K.written sink.old) (K.written sink.new) result }
    ensures write_fault { result ≡ WriteFault → Rose (K.faults sink.old) (K.faults sink.new) }
{
    let text = &input[parted.after..];
    match read_parts(alloc, &problem.signature, names, text) {
        Ok(parts) => write_lines(alloc, problem, goals, parts.as_slice(), sink),
        Err(fault) => refuse_parts(alloc, input, parted.after, fault, sink),
    }
}

// Checks the parts that stand behind the separator, of the goals of the problem before it.
fn check_parts<K: Sink>(
    alloc: Global,
    input: &[u8],
    parted: Parted,
    problem: &Problem,
    sink: &mut K,
) -> Status
    requires parted { IsParted input.now (take parted.before input.now) (drop parted.after input.now) }
    requires within { parted.after ≤ length input.now }
    requires problem { IsProblemOf (take parted.before input.now) problem.now }
    ensures ends { InputEnds input.now (K.written sink.old) (K.written sink.new) result }
    ensures write_fault { result ≡ WriteFault → Rose (K.faults sink.old) (K.faults sink.new) }
{
    let Ok(goals) = goals_of(alloc, problem) else {
        return Status::Memory;
    };
    let goals = goals.as_slice();
    match names_of(alloc, goals) {
        Ok(names) => check_against(alloc, input, parted, problem, goals, names.as_slice(), sink),
        Err(_) => Status::Memory,
    }
}

// Answers an input before whose separator no problem was read.
fn refuse_problem<K: Sink>(
    alloc: Global,
    input: &[u8],
    parted: Parted,
    none: &NotRead,
    sink: &mut K,
) -> Status
    requires parted { IsParted input.now (take parted.before input.now) (drop parted.after input.now) }
    requires none { IsNotRead (take parted.before input.now) none.now }
    ensures ends { InputEnds input.now (K.written sink.old) (K.written sink.new) result }
    ensures write_fault { result ≡ WriteFault → Rose (K.faults sink.old) (K.faults sink.new) }
{
    match none {
        NotRead::Refused(why) => refuse(alloc, input, why, sink),
        NotRead::Memory => Status::Memory,
    }
}

// Checks an input that has a separator.
fn check_parted<K: Sink>(alloc: Global, input: &[u8], parted: Parted, sink: &mut K) -> Status
    requires parted { IsParted input.now (take parted.before input.now) (drop parted.after input.now) }
    requires order { parted.before ≤ parted.after }
    requires within { parted.after ≤ length input.now }
    ensures ends { InputEnds input.now (K.written sink.old) (K.written sink.new) result }
    ensures write_fault { result ≡ WriteFault → Rose (K.faults sink.old) (K.faults sink.new) }
{
    let text = &input[..parted.before];
    match read_problem(alloc, text) {
        Ok(problem) => {
            let status = check_parts(alloc, input, parted, &problem, sink);
            release_problem(alloc, problem);
            status
        }
        Err(none) => refuse_problem(alloc, input, parted, &none, sink),
    }
}

/// Checks an input that was read whole: parts it at the separator, reads the problem before it and the parts behind it, and
/// writes a line for each goal as soon as its part is checked.
pub fn check_input<K: Sink>(alloc: Global, input: &[u8], sink: &mut K) -> Status
    ensures ends { InputEnds input.now (K.written sink.old) (K.written sink.new) result }
    ensures write_fault { result ≡ WriteFault → Rose (K.faults sink.old) (K.faults sink.new) }
{
    match parting(input) {
        Some(parted) => check_parted(alloc, input, parted, sink),
        None => refuse(alloc, input, &Reason::Plain(Refusal::NoSeparator), sink),
    }
}
