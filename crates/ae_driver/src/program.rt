//! The top call.

ghost use Rattle.std.specs.Prelude.{◌≡◌, ◌≢◌, ◌⊎◌, ◌≤◌, ◌<◌, ℕ, length, map, string_bytes, IfOk};
ghost use Rattle.std.specs.Io.KnownBytes.{IsAtEnd};
ghost use Rattle.ae_io.specs.Moves.{Rose, Gets, GetsPrefix};
ghost use Rattle.ae_core.specs.Signatures.{IsLawfulProblem};
ghost use Rattle.ae_search_options.specs.declared.limits.Limits.{Limits};
ghost use Rattle.ae_writable.specs.Numbers.{HasLowestNumerals};
ghost use Rattle.ae_driver.specs.Output.{IsDone, IsOffered, IsRefusedText, IsRefusedByLength, IsOutOfMemory, IsCutOff, usage_line};
ghost use Rattle.ae_driver.specs.Passing.{IsDoneAndPasses};
ghost use Rattle.ae_driver.specs.Checking.{IsDoneChecking, IsOfferedChecking, IsRefusedChecking, IsOutOfMemoryChecking, IsCutOffChecking};
ghost use Rattle.ae_driver.specs.Demo.{IsDoneDemo, IsOutOfMemoryDemo, IsCutOffDemo};
ghost use Rattle.ae_driver.specs.Words.{AskToProve, AskToCheck, AskForDemo, AskForNothing};
ghost use Rattle.ae_driver.specs.Inner.Endings.{IsAsked, IsNotRead, PartEnds, GoalsEnd, PlacesStand, RefusalEnds, TextEnds};
ghost use Rattle.ae_driver.specs.declared.program.Status.TheVariants.{Done, Refused, ReadFault, WriteFault, Memory, Usage};

use crate::checking::check_input;
use crate::demo::answer_demo;
use crate::reasons::{Reason, reason_text};
use crate::texts::{NotRead, read_problem};
use ae_cli::options::{CliFail, Mode, Options};
use ae_cli::words::options;
use ae_core::problems::Problem;
use ae_elaborate::release_problem;
use ae_goal_parts::item_part;
use ae_io::{ReadEnd, Sink, Source, read_all, write_all};
use ae_lowest_numerals::typed_problems_have_lowest_numerals;
use ae_report::Refusal;
use ae_search_options::picks::Picks;
use std::alloc::{AllocError, Global};

/// The most bytes that one text may have: 16 MiB.
pub const INPUT_LIMIT: usize = 16777216;

/// How a run ends.
#[derive(Clone, Copy, Debug, PartialEq, Eq)]
pub enum Status {
    /// Every goal has its answer, and all was written.
    Done,
    /// The input was refused, and one refusal line was written.
    Refused,
    /// A read failed; nothing was written.
    ReadFault,
    /// A write failed.
    WriteFault,
    /// There was no memory.
    Memory,
    /// The words are wrong, and the usage line was written; nothing was read.
    Usage,
}

/// Reads a text, and answers its goals in order, each as soon as it is settled; or checks an output for a text; or answers goals of
/// its own.
///
/// Where the words ask for proofs:
///
/// - `Done` comes only where the source was read to its end, its text has at most `INPUT_LIMIT` bytes and a problem, and one part
///   was written for each goal: `Valid` with the text of a proof that derives the goal in that problem, with its axioms; `I don't know` with the text of a
///   saturated state; `Limit steps N` with a legal journal of N counted lines, where N is the words' bound; or `Limit number` with a
///   step that leaves the limits of numbers, which a legal journal licenses. Of a goal of the ground fragment the proof is a ground
///   proof, and a saturated state says that none exists. What was written passes the check: behind the text,
///   with a line break where it doesn't end with one, and a line of exactly `%%`, it is an output for the same problem, and each
///   goal's line is `accepted` or `number` where its part is a proof, and `unchecked` where it isn't. No line of the text may
///   itself be `%%`; and where all of it has more than `INPUT_LIMIT` bytes, it is too long to be checked in one run.
/// - `Refused` comes only where the line of the first reason was written: the source had more bytes left than
///   `INPUT_LIMIT`, the text has a fault of its tokens, its tokens have a fault of syntax, or its tree has a fault of typing. So
///   each text within the limit that has a problem is answered.
///
/// Where they ask for a check:
///
/// - `Done` comes only where the source was read to its end, a line of exactly `%%` stands in what was read, before it a text
///   with a problem, whatever that holds, and behind it a part for each goal, and a line was written for each goal that says
///   what its part is worth as a proof of that goal.
/// - `Refused` comes only where the line of the first reason was written: the input is too long, it has no such line, what
///   stands before the line has no problem, or what stands behind it are no such parts. Lines count from the start of the input.
///
/// Where they ask for a demo of N goals, nothing is read:
///
/// - `Done` comes only where a legal output for the demo's text of N goals was written, as for a text of a source, and then one line
///   with the number of its parts of each of the four answers, and of the proofs in its parts that the check accepts. The parts are
///   those that the output is read as.
/// - It is never refused: the answer is `Done`, `WriteFault` or `Memory`.
///
/// And whatever they ask for:
///
/// - `Usage` comes only where the words are wrong, and then the usage line was written. Where they are wrong, nothing is read: the
///   answer is `Usage`, `WriteFault` where the line couldn't be written, or `Memory`.
/// - `ReadFault` and `WriteFault` come only where the count of faults of the source or of the sink rose in this call. After
///   `ReadFault` the sink is as it was; after `WriteFault` it got a proper front of what was being written.
/// - `Memory` is the one free answer: nothing was written, or what is written for the first goals.
pub fn run<S: Source, K: Sink>(
    alloc: Global,
    words: &[String],
    picks: &Picks,
    source: &mut S,
    sink: &mut K,
) -> Status
    ensures done { (ask : AskToProve (map string_bytes words.now)) → result ≡ Done → IsDone ask.options.limits (S.left source.old) (K.written sink.old) (K.written sink.new) }
    ensures passes { AskToProve (map string_bytes words.now) → result ≡ Done → IsDoneAndPasses (S.left source.old) (K.written sink.old) (K.written sink.new) }
    ensures done_checking { AskToCheck (map string_bytes words.now) → result ≡ Done → IsDoneChecking (S.left source.old) (K.written sink.old) (K.written sink.new) }
    ensures done_demo { (n : ℕ) (ask : AskForDemo n (map string_bytes words.now)) → result ≡ Done → IsDoneDemo ask.options.limits n (K.written sink.old) (K.written sink.new) }
    ensures end { AskToProve (map string_bytes words.now) ⊎ AskToCheck (map string_bytes words.now) → result ≡ Done → IsAtEnd (S.left source.new) }
    ensures complete { AskToProve (map string_bytes words.now) → IsOffered (S.left source.old) → ¬ (Rose (S.faults source.old) (S.faults source.new)) → ¬ (Rose (K.faults sink.old) (K.faults sink.new)) → (result ≡ Done) ⊎ (result ≡ Memory) }
    ensures complete_checking { AskToCheck (map string_bytes words.now) → IsOfferedChecking (S.left source.old) → ¬ (Rose (S.faults source.old) (S.faults source.new)) →
        ¬ (Rose (K.faults sink.old) (K.faults sink.new)) → (result ≡ Done) ⊎ (result ≡ Memory) }
    ensures complete_demo { (n : ℕ) → AskForDemo n (map string_bytes words.now) → (result ≡ Done) ⊎ ((result ≡ WriteFault) ⊎ (result ≡ Memory)) }
    ensures refused { AskToProve (map string_bytes words.now) → result ≡ Refused →
        IsRefusedText (S.left source.old) (K.written sink.old) (K.written sink.new) ⊎ IsRefusedByLength (S.left source.old) (K.written sink.old) (K.written sink.new) }
    ensures refused_checking { AskToCheck (map string_bytes words.now) → result ≡ Refused →
        IsRefusedChecking (S.left source.old) (K.written sink.old) (K.written sink.new) ⊎ IsRefusedByLength (S.left source.old) (K.written sink.old) (K.written sink.new) }
    ensures usage { result ≡ Usage → AskForNothing (map string_bytes words.now) }
    ensures usage_line { result ≡ Usage → Gets (K.written sink.old) (K.written sink.new) usage_line }
    ensures words { AskForNothing (map string_bytes words.now) → (result ≡ Usage) ⊎ ((result ≡ WriteFault) ⊎ (result ≡ Memory)) }
    ensures unread { AskForNothing (map string_bytes words.now) → source.new ≡ source.old }
    ensures unread_demo { (n : ℕ) → AskForDemo n (map string_bytes words.now) → source.new ≡ source.old }
    ensures read_fault { result ≡ ReadFault → Rose (S.faults source.old) (S.faults source.new) }
    ensures nothing { result ≡ ReadFault → sink.new ≡ sink.old }
    ensures write_fault { result ≡ WriteFault → Rose (K.faults sink.old) (K.faults sink.new) }
    ensures cut_off { (ask : AskToProve (map string_bytes words.now)) → result ≡ WriteFault → IsCutOff ask.options.limits (S.left source.old) (K.written sink.old) (K.written sink.new) }
    ensures cut_off_checking { AskToCheck (map string_bytes words.now) → result ≡ WriteFault → IsCutOffChecking (S.left source.old) (K.written sink.old) (K.written sink.new) }
    ensures cut_off_demo { (n : ℕ) (ask : AskForDemo n (map string_bytes words.now)) → result ≡ WriteFault → IsCutOffDemo ask.options.limits n (K.written sink.old) (K.written sink.new) }
    ensures usage_cut_off { AskForNothing (map string_bytes words.now) → result ≡ WriteFault → GetsPrefix (K.written sink.old) (K.written sink.new) usage_line }
    ensures memory { (ask : AskToProve (map string_bytes words.now)) → result ≡ Memory → IsOutOfMemory ask.options.limits (S.left source.old) (K.written sink.old) (K.written sink.new) }
    ensures memory_checking { AskToCheck (map string_bytes words.now) → result ≡ Memory → IsOutOfMemoryChecking (S.left source.old) (K.written sink.old) (K.written sink.new) }
    ensures memory_demo { (n : ℕ) (ask : AskForDemo n (map string_bytes words.now)) → result ≡ Memory → IsOutOfMemoryDemo ask.options.limits n (K.written sink.old) (K.written sink.new) }
    ensures memory_nothing { AskForNothing (map string_bytes words.now) → result ≡ Memory → sink.new ≡ sink.old }
{
    match task_of(alloc, words) {
        Ok(Task::Proofs(asked)) => prove(alloc, picks, asked, source, sink),
        Ok(Task::Check) => check(alloc, source, sink),
        Ok(Task::Demo(goals, asked)) => answer_demo(alloc, goals, picks, asked, sink),
        Ok(Task::Nothing) => tell(
            sink,
            b"usage: altac [--steps-bound N] [--gen-bound G] [--pick first|last|mixed] [--check | --demo N]\n",
            Status::Usage,
        ),
        Err(_) => Status::Memory,
    }
}

// What words ask for.
#[derive(Clone, Copy)]
enum Task {
    // Proofs, with these options.
    Proofs(Options),
    Check,
    // Answers to so many goals of the program's own, with these options.
    Demo(u32, Options),
    // They are wrong.
    Nothing,
}

// What the words ask for. `Err` where there is no memory to read them.
fn task_of(alloc: Global, words: &[String]) -> Result<Task, AllocError>
    ensures { IfOk result (IsAsked (map string_bytes words.now)) }
{
    match options(alloc, words) {
        Ok(stated) => match stated.mode {
            Mode::Prove => Ok(Task::Proofs(stated)),
            Mode::Check => Ok(Task::Check),
            Mode::Demo(goals) => Ok(Task::Demo(goals, stated)),
        },
        Err(CliFail::Usage) => Ok(Task::Nothing),
        Err(CliFail::Memory(error)) => Err(error),
    }
}

// Reads a text, and answers its goals.
fn prove<S: Source, K: Sink>(
    alloc: Global,
    picks: &Picks,
    asked: Options,
    source: &mut S,
    sink: &mut K,
) -> Status
    requires way { asked.which < 3 }
    requires least { 1 ≤ asked.limits.steps }
    requires most { asked.limits.steps ≤ 1000000 }
    ensures done { result ≡ Done → IsDone asked.limits (S.left source.old) (K.written sink.old) (K.written sink.new) }
    ensures passes { result ≡ Done → IsDoneAndPasses (S.left source.old) (K.written sink.old) (K.written sink.new) }
    ensures end { result ≡ Done → IsAtEnd (S.left source.new) }
    ensures complete { IsOffered (S.left source.old) → ¬ (Rose (S.faults source.old) (S.faults source.new)) → ¬ (Rose (K.faults sink.old) (K.faults sink.new)) → (result ≡ Done) ⊎ (result ≡ Memory) }
    ensures refused { result ≡ Refused → IsRefusedText (S.left source.old) (K.written sink.old) (K.written sink.new) ⊎ IsRefusedByLength (S.left source.old) (K.written sink.old) (K.written sink.new) }
    ensures no_usage { result ≢ Usage }
    ensures read_fault { result ≡ ReadFault → Rose (S.faults source.old) (S.faults source.new) }
    ensures nothing { result ≡ ReadFault → sink.new ≡ sink.old }
    ensures write_fault { result ≡ WriteFault → Rose (K.faults sink.old) (K.faults sink.new) }
    ensures cut_off { result ≡ WriteFault → IsCutOff asked.limits (S.left source.old) (K.written sink.old) (K.written sink.new) }
    ensures memory { result ≡ Memory → IsOutOfMemory asked.limits (S.left source.old) (K.written sink.old) (K.written sink.new) }
{
    match read_all(alloc, source, INPUT_LIMIT) {
        Ok(text) => answer(alloc, text.as_slice(), picks, asked, sink),
        Err(ReadEnd::ReadFault) => Status::ReadFault,
        Err(ReadEnd::TooLong) => refuse(alloc, &[], &Reason::Plain(Refusal::TooLong), sink),
        Err(ReadEnd::Memory) => Status::Memory,
    }
}

// Reads an input, and checks its parts.
fn check<S: Source, K: Sink>(alloc: Global, source: &mut S, sink: &mut K) -> Status
    ensures done { result ≡ Done → IsDoneChecking (S.left source.old) (K.written sink.old) (K.written sink.new) }
    ensures end { result ≡ Done → IsAtEnd (S.left source.new) }
    ensures complete { IsOfferedChecking (S.left source.old) → ¬ (Rose (S.faults source.old) (S.faults source.new)) → ¬ (Rose (K.faults sink.old) (K.faults sink.new)) → (result ≡ Done) ⊎ (result ≡ Memory) }
    ensures refused { result ≡ Refused → IsRefusedChecking (S.left source.old) (K.written sink.old) (K.written sink.new) ⊎ IsRefusedByLength (S.left source.old) (K.written sink.old) (K.written sink.new) }
    ensures no_usage { result ≢ Usage }
    ensures read_fault { result ≡ ReadFault → Rose (S.faults source.old) (S.faults source.new) }
    ensures nothing { result ≡ ReadFault → sink.new ≡ sink.old }
    ensures write_fault { result ≡ WriteFault → Rose (K.faults sink.old) (K.faults sink.new) }
    ensures cut_off { result ≡ WriteFault → IsCutOffChecking (S.left source.old) (K.written sink.old) (K.written sink.new) }
    ensures memory { result ≡ Memory → IsOutOfMemoryChecking (S.left source.old) (K.written sink.old) (K.written sink.new) }
{
    match read_all(alloc, source, INPUT_LIMIT) {
        Ok(input) => check_input(alloc, input.as_slice(), sink),
        Err(ReadEnd::ReadFault) => Status::ReadFault,
        Err(ReadEnd::TooLong) => refuse(alloc, &[], &Reason::Plain(Refusal::TooLong), sink),
        Err(ReadEnd::Memory) => Status::Memory,
    }
}

// Writes one line, and ends with this status where it could be written.
fn tell<K: Sink>(sink: &mut K, line: &[u8], status: Status) -> Status
    requires { (status ≡ Usage) ⊎ (status ≡ Refused) }
    ensures same { (result ≡ status) ⊎ (result ≡ WriteFault) }
    ensures write_fault { result ≡ WriteFault → Rose (K.faults sink.old) (K.faults sink.new) }
    ensures told { result ≡ status → Gets (K.written sink.old) (K.written sink.new) line.now }
    ensures cut_off { result ≡ WriteFault → GetsPrefix (K.written sink.old) (K.written sink.new) line.now }
{
    match write_all(sink, line) {
        Ok(()) => status,
        Err(_) => Status::WriteFault,
    }
}

// Writes the line by which a text is refused.
pub(crate) fn refuse<K: Sink>(alloc: Global, text: &[u8], why: &Reason, sink: &mut K) -> Status
    requires { PlacesStand text.now why.now }
    ensures ends { RefusalEnds text.now why.now (K.written sink.old) (K.written sink.new) result }
    ensures write_fault { result ≡ WriteFault → Rose (K.faults sink.old) (K.faults sink.new) }
{
    match reason_text(alloc, text, why) {
        Ok(line) => tell(sink, line.as_slice(), Status::Refused),
        Err(_) => Status::Memory,
    }
}

// Answers a text that was read whole.
fn answer<K: Sink>(
    alloc: Global,
    text: &[u8],
    picks: &Picks,
    asked: Options,
    sink: &mut K,
) -> Status
    requires way { asked.which < 3 }
    requires least { 1 ≤ asked.limits.steps }
    requires most { asked.limits.steps ≤ 1000000 }
    ensures ends { TextEnds asked.limits text.now (K.written sink.old) (K.written sink.new) result }
    ensures write_fault { result ≡ WriteFault → Rose (K.faults sink.old) (K.faults sink.new) }
{
    typed_problems_have_lowest_numerals();
    match read_problem(alloc, text) {
        Ok(problem) => {
            let status = answer_items(alloc, &problem, picks, asked, sink);
            release_problem(alloc, problem);
            status
        }
        Err(none) => answer_unread(alloc, text, &none, sink),
    }
}

// Answers a text of which no problem was read.
fn answer_unread<K: Sink>(alloc: Global, text: &[u8], none: &NotRead, sink: &mut K) -> Status
    requires none { IsNotRead text.now none.now }
    ensures ends { (limits : Limits) → TextEnds limits text.now (K.written sink.old) (K.written sink.new) result }
    ensures write_fault { result ≡ WriteFault → Rose (K.faults sink.old) (K.faults sink.new) }
{
    match none {
        NotRead::Refused(why) => refuse(alloc, text, why, sink),
        NotRead::Memory => Status::Memory,
    }
}

// Answers the goals of a problem in order.
fn answer_items<K: Sink>(
    alloc: Global,
    problem: &Problem,
    picks: &Picks,
    asked: Options,
    sink: &mut K,
) -> Status
    requires lawful { IsLawfulProblem problem.now }
    requires lowest { HasLowestNumerals problem.now }
    requires way { asked.which < 3 }
    requires least { 1 ≤ asked.limits.steps }
    requires most { asked.limits.steps ≤ 1000000 }
    ensures ends { GoalsEnd problem.now asked.limits (K.written sink.old) (K.written sink.new) result }
    ensures write_fault { result ≡ WriteFault → Rose (K.faults sink.old) (K.faults sink.new) }
{
    for place in 0..problem.items.len() {
        match answer_item(alloc, problem, place, picks, asked, sink) {
            Status::Done => {}
            stopped => return stopped,
        }
    }
    Status::Done
}

// Answers one item: writes nothing for an axiom.
fn answer_item<K: Sink>(
    alloc: Global,
    problem: &Problem,
    place: usize,
    picks: &Picks,
    asked: Options,
    sink: &mut K,
) -> Status
    requires lawful { IsLawfulProblem problem.now }
    requires lowest { HasLowestNumerals problem.now }
    requires place { place < length problem.now.items }
    requires way { asked.which < 3 }
    requires least { 1 ≤ asked.limits.steps }
    requires most { asked.limits.steps ≤ 1000000 }
    ensures ends { PartEnds problem.now asked.limits place (K.written sink.old) (K.written sink.new) result }
    ensures memory { result ≡ Memory → sink.new ≡ sink.old }
    ensures write_fault { result ≡ WriteFault → Rose (K.faults sink.old) (K.faults sink.new) }
    ensures later { K.faults sink.old ≤ K.faults sink.new }
{
    match item_part(alloc, problem, place, picks, asked.which, &asked.limits) {
        Ok(part) => match write_all(sink, part.as_slice()) {
            Ok(()) => Status::Done,
            Err(_) => Status::WriteFault,
        },
        Err(_) => Status::Memory,
    }
}
