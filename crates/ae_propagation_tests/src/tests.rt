//! Both ways of unit propagation on clause sets that a generator makes.
ghost use Rattle.std.specs.Prelude.{◌≡◌, ◌<◌, [], IfOk};

use ae_core::copies::copy_clause;
use ae_core::formulas::{Clause, Formula, Lit};
use ae_core::lists::List;
use ae_explain::Trail;
use ae_propagation::propagation::Propagation;
use ae_propagation::settle::{Settled, settle};
use ae_steps::Steps;
use std::alloc::{AllocError, Global};
use std::marker::Brand;
use std::sync::ledger::{Blank, Ledger};

/// The next number of a generator, below 2 ^ 31.
fn next(seed: u64) -> u64 {
    ((seed % 0x8000_0000) * 1_103_515_245 + 12_345) % 0x8000_0000
}

fn lit_of(alloc: Global, number: u64) -> Lit {
    Lit {
        positive: number % 2 == 0,
        formula: Formula::Pred {
            symbol: (number / 2) as usize,
            sorts: List::new(alloc),
            args: List::new(alloc),
        },
    }
}

/// One to three literals over eight atoms, by a number.
fn clause_by(alloc: Global, number: u64) -> Result<Clause, AllocError> {
    let mut clause = List::new(alloc);
    clause.push(lit_of(alloc, number / 64 % 16))?;
    if number / 1024 % 8 != 0 {
        clause.push(lit_of(alloc, number / 8192 % 16))?;
    }
    if number / 131_072 % 4 != 0 {
        clause.push(lit_of(alloc, number / 524_288 % 16))?;
    }
    Ok(clause)
}

/// As many clauses by numbers of the generator.
fn clauses_by(alloc: Global, seed: u64, count: usize) -> Result<List<Clause>, AllocError> {
    let mut clauses = List::new(alloc);
    let mut number = seed;
    for _ in 0..count {
        number = next(number);
        clauses.push(clause_by(alloc, number)?)?;
    }
    Ok(clauses)
}

/// An empty trail with these clauses.
fn propagation_of(alloc: Global, clauses: &[Clause]) -> Result<Propagation, AllocError>
    ensures { IfOk result (λ p. p.trail ≡ []) }
{
    let mut propagation = Propagation::new(alloc);
    for i in 0..clauses.len() {
        propagation.attach(copy_clause(alloc, clauses[i].as_slice())?)?;
    }
    Ok(propagation)
}

/// How unit propagation by scans ends, from the empty trail on.
fn by_scans(alloc: Global, clauses: &[Clause]) -> Result<Settled, AllocError> {
    let mut trail = Trail::new(alloc);
    settle(alloc, clauses, &mut trail)
}

/// The same by lists.
fn by_lists<L: Ledger>(propagation: &mut Propagation, blank: Blank) -> Result<Settled, AllocError>
    requires trail { propagation.old.trail ≡ [] }
    requires name { blank.name ≡ L.name }
    requires parts { blank.parts ≡ L.parts }
    requires some { 0 < blank.parts }
{
    let mut steps = Steps::<L>::new(blank);
    propagation.settle_all(&mut steps)
}

/// The same, with a counter that nobody reads.
fn by_lists_uncounted(propagation: &mut Propagation) -> Result<Settled, AllocError>
    requires trail { propagation.old.trail ≡ [] }
{
    by_lists::<Brand>(propagation, Blank::new(1))
}

fn is_quiet(settled: Settled) -> bool {
    match settled {
        Settled::Quiet => true,
        Settled::Falsified(_) => false,
    }
}

/// How both ways end on the clauses of a seed, after one clause more was attached and detached.
fn both(alloc: Global, seed: u64) -> Result<(Settled, Settled), AllocError> {
    let clauses = clauses_by(alloc, seed, 24)?;
    let mut propagation = propagation_of(alloc, clauses.as_slice())?;
    propagation.attach(clause_by(alloc, next(seed))?)?;
    propagation.detach();
    let one = by_scans(alloc, clauses.as_slice())?;
    let other = by_lists_uncounted(&mut propagation)?;
    Ok((one, other))
}

/// How many of the clause sets of so many seeds end quiet; none where the two ways end differently on one.
fn count_quiet(alloc: Global, count: usize) -> Result<Option<usize>, AllocError> {
    let mut quiet: usize = 0;
    let mut seed = 1;
    for _ in 0..count {
        seed = next(seed);
        let (one, other) = both(alloc, seed)?;
        if is_quiet(one) != is_quiet(other) {
            return Ok(None);
        }
        if is_quiet(one) {
            quiet = quiet.saturating_add(1);
        }
    }
    Ok(Some(quiet))
}

#[test]
fn both_ways_end_alike(rt: HostRuntime) -> Result<(), AllocError> {
    // both kinds of answer are met often
    let quiet = count_quiet(rt.alloc(), 200)?;
    assert!(rt; matches!(quiet, Some(count) if 50 < count && count < 150));
    Ok(())
}
