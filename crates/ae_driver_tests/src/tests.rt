//! Texts at the limit on depth: they take more of the stack than others, so that they stand in no program of tests.

use ae_driver::{Status, run};
use ae_io::{MemSink, MemSource};
use ae_search_options::picks::{Pick, Picks};
use std::alloc::{AllocError, Global};
use std::test::Fail;

// How the run over a text ends, and what it writes.
fn answer(alloc: Global, text: &[u8]) -> Result<(Status, Vec<u8>), AllocError> {
    let bytes = Vec::from_slice(alloc, text)?;
    let mut source = MemSource::new(bytes, 4096, Vec::new(alloc));
    let room = Vec::with_capacity(alloc, 1 << 26)?;
    let mut sink = MemSink::new(room, 4096, Vec::new(alloc));
    let decide_first = Pick::keep(Box::new(alloc, |_n: usize, _turn: usize| 0)?);
    let decide_last = Pick::keep(Box::new(alloc, |_n: usize, _turn: usize| 0)?);
    let decide_mixed = Pick::keep(Box::new(alloc, |_n: usize, _turn: usize| 0)?);
    let rank_first = Pick::keep(Box::new(alloc, |_n: usize, _turn: usize| 0)?);
    let rank_last = Pick::keep(Box::new(alloc, |_n: usize, _turn: usize| 0)?);
    let rank_mixed = Pick::keep(Box::new(alloc, |_n: usize, _turn: usize| 0)?);
    let picks = Picks {
        decide: [decide_first, decide_last, decide_mixed],
        rank: [rank_first, rank_last, rank_mixed],
    };
    let status = run(alloc, &[], &picks, &mut source, &mut sink);
    Ok((status, Vec::from_slice(alloc, sink.kept())?))
}

// How a text ends whose goal stands in so many brackets.
fn bracketed(alloc: Global, count: usize) -> Result<(Status, Vec<u8>), AllocError> {
    let mut text = Vec::new(alloc);
    text.extend_from_slice(b"type t\nlogic a, b, c, d, e : t\ngoal g : ")?;
    for _ in 0..count {
        text.push(b'(')?;
    }
    text.extend_from_slice(b"a = a")?;
    for _ in 0..count {
        text.push(b')')?;
    }
    answer(alloc, text.as_slice())
}

// A chain as long as the depth of a text allows: 1,001 equations.
fn longest_chain(alloc: Global) -> Result<(Status, Vec<u8>), AllocError> {
    let mut text = Vec::new(alloc);
    text.extend_from_slice(b"type t logic a, b : t goal g : ")?;
    for _ in 0..1000 {
        text.extend_from_slice(b"a = b -> ")?;
    }
    text.extend_from_slice(b"b = a")?;
    answer(alloc, text.as_slice())
}

#[test]
fn limit_on_depth(rt: HostRuntime) -> Result<(), Fail> {
    let (status, line) = bracketed(rt.alloc(), 1001)?;
    assert!(rt;
        status == Status::Refused && line.as_slice() == b"refused 3:1010 too deep\n".as_slice()
    );
    let (status, part) = bracketed(rt.alloc(), 1000)?;
    assert!(rt; status == Status::Done && part.starts_with(b"goal g Valid\n"));
    let (status, part) = longest_chain(rt.alloc())?;
    assert!(rt; status == Status::Done && part.starts_with(b"goal g Valid\nproof 2\naxioms []\n"));
    Ok(())
}
