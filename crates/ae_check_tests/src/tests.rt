//! A problem whose axiom is false, and short proofs of its goal.
use ae_check::verdict::{CheckFail, Verdict, check};
use ae_core::formulas::Formula;
use ae_core::lists::{Boxed, List};
use ae_core::problems::{Item, Problem, Signature};
use ae_core::proofs::{Block, ClauseLine, Deriv, Ending, EqLine, Proof};
use ae_core::terms::Term;
use ae_core::words::Word;
use std::alloc::{AllocError, Global};

fn word(alloc: Global) -> Result<Word, AllocError> {
    Ok(Word::from_string(String::from_str(alloc, "name")?))
}

/// `axiom name : false` and `goal name : not true`
fn problem(alloc: Global) -> Result<Problem, AllocError> {
    let mut items = List::new(alloc);
    items.push(Item::Axiom {
        name: word(alloc)?,
        vars: 0,
        body: Formula::False,
    })?;
    items.push(Item::Goal {
        name: word(alloc)?,
        rigid: 0,
        body: Formula::Not(Boxed::new(alloc, Formula::True)?),
    })?;
    Ok(Problem {
        signature: Signature {
            types: List::new(alloc),
            symbols: List::new(alloc),
        },
        items,
    })
}

/// The defining clause of a number of `false`; 16 is the one that it has.
fn definition(row: usize) -> ClauseLine {
    ClauseLine::Def {
        row,
        formula: Formula::False,
    }
}

fn axiom(alloc: Global) -> ClauseLine {
    ClauseLine::Hyp {
        axiom: 0,
        sorts: List::new(alloc),
    }
}

/// The empty clause by hints.
fn empty(alloc: Global, hints: &[usize]) -> Result<ClauseLine, AllocError> {
    Ok(ClauseLine::Rup {
        clause: List::new(alloc),
        hints: List::from_slice(alloc, hints)?,
    })
}

/// The axiom, the defining clause of this number, and the empty clause by these hints.
fn proof(alloc: Global, row: usize, hints: &[usize]) -> Result<List<ClauseLine>, AllocError> {
    let mut lines = List::new(alloc);
    lines.push(axiom(alloc))?;
    lines.push(definition(row))?;
    lines.push(empty(alloc, hints)?)?;
    Ok(lines)
}

fn verdict(alloc: Global, lines: List<ClauseLine>) -> Result<Verdict, CheckFail> {
    let problem = problem(alloc)?;
    check(alloc, &problem, 1, &Proof { lines })
}

#[test]
fn verdicts_on_short_proofs(rt: HostRuntime) -> Result<(), CheckFail> {
    let alloc = rt.alloc();
    let accepted = verdict(alloc, proof(alloc, 16, &[0, 1])?)?;
    assert_eq!(rt; accepted, Verdict::Accepted);
    let wrong_row = verdict(alloc, proof(alloc, 15, &[0, 1])?)?;
    assert_eq!(rt; wrong_row, Verdict::Refused { line: 1 });
    let wrong_hint = verdict(alloc, proof(alloc, 16, &[0, 2])?)?;
    assert_eq!(rt; wrong_hint, Verdict::Refused { line: 2 });
    Ok(())
}

#[test]
fn a_proof_ends_by_the_empty_clause(rt: HostRuntime) -> Result<(), CheckFail> {
    let alloc = rt.alloc();
    let mut lines = proof(alloc, 16, &[0, 1])?;
    lines.push(axiom(alloc))?;
    assert_eq!(rt; verdict(alloc, lines)?, Verdict::Refused { line: 4 });
    assert_eq!(rt;
        verdict(alloc, List::new(alloc))?,
        Verdict::Refused { line: 0 },
        "no line"
    );
    Ok(())
}

fn number(top: i128) -> Term {
    Term::Num {
        top,
        bottom: 1,
        real: false,
    }
}

/// A block whose line takes a number of 127 bits twice.
fn wide(alloc: Global) -> Result<List<ClauseLine>, AllocError> {
    let mut lines = List::new(alloc);
    lines.push(EqLine::EqLin {
        left: number(i128::MAX),
        right: number(0),
        times: 2,
        parts: List::new(alloc),
    })?;
    let deriv = Deriv {
        hyps: List::new(alloc),
        lines,
    };
    let mut proof = List::new(alloc);
    proof.push(ClauseLine::Block(Block {
        deriv,
        ending: Ending::Const { line: 0 },
    }))?;
    Ok(proof)
}

#[test]
fn a_wide_product_has_no_verdict(rt: HostRuntime) -> Result<(), CheckFail> {
    let alloc = rt.alloc();
    let answer = verdict(alloc, wide(alloc)?);
    let is_wide = matches!(&answer, Err(CheckFail::Number(_)));
    assert!(rt; is_wide);
    Ok(())
}
