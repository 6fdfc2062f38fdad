//! The rows of each form of literal. What is expected is the table of defining clauses.
use crate::defining;
use ae_core::formulas::{Formula, Lit};
use ae_core::lists::{Boxed, List};
use ae_core::proofs::ClauseLine;
use std::alloc::{AllocError, Global};

fn atom(alloc: Global, symbol: usize) -> Result<Boxed<Formula>, AllocError> {
    Boxed::new(
        alloc,
        Formula::Pred {
            symbol,
            sorts: List::new(alloc),
            args: List::new(alloc),
        },
    )
}

/// The numbers of the lines of a literal.
fn rows(alloc: Global, positive: bool, formula: Formula) -> Result<Vec<usize>, AllocError> {
    let lines = defining(alloc, &Lit { positive, formula })?;
    let mut numbers = Vec::new(alloc);
    for line in lines.as_slice() {
        if let ClauseLine::Def { row, .. } = line {
            numbers.push(*row)?;
        }
    }
    Ok(numbers)
}

#[test]
fn true_literals(rt: HostRuntime) -> Result<(), AllocError> {
    let alloc = rt.alloc();
    let (a, b) = (atom(alloc, 0)?, atom(alloc, 1)?);
    assert!(rt; rows(alloc, true, Formula::And(a, b))?.as_slice() == [1, 2].as_slice());
    let (a, b) = (atom(alloc, 0)?, atom(alloc, 1)?);
    assert!(rt; rows(alloc, true, Formula::Or(a, b))?.as_slice() == [6].as_slice());
    let (a, b) = (atom(alloc, 0)?, atom(alloc, 1)?);
    assert!(rt; rows(alloc, true, Formula::Iff(a, b))?.as_slice() == [7, 8].as_slice());
    let (a, b) = (atom(alloc, 0)?, atom(alloc, 1)?);
    assert!(rt; rows(alloc, true, Formula::Xor(a, b))?.as_slice() == [11, 12].as_slice());
    assert!(rt; rows(alloc, true, Formula::True)?.as_slice() == [15].as_slice());
    assert!(rt; rows(alloc, true, Formula::False)?.as_slice() == [16].as_slice());
    Ok(())
}

#[test]
fn false_literals(rt: HostRuntime) -> Result<(), AllocError> {
    let alloc = rt.alloc();
    let (a, b) = (atom(alloc, 0)?, atom(alloc, 1)?);
    assert!(rt; rows(alloc, false, Formula::And(a, b))?.as_slice() == [3].as_slice());
    let (a, b) = (atom(alloc, 0)?, atom(alloc, 1)?);
    assert!(rt; rows(alloc, false, Formula::Or(a, b))?.as_slice() == [4, 5].as_slice());
    let (a, b) = (atom(alloc, 0)?, atom(alloc, 1)?);
    assert!(rt; rows(alloc, false, Formula::Iff(a, b))?.as_slice() == [9, 10].as_slice());
    let (a, b) = (atom(alloc, 0)?, atom(alloc, 1)?);
    assert!(rt; rows(alloc, false, Formula::Xor(a, b))?.as_slice() == [13, 14].as_slice());
    Ok(())
}

#[test]
fn atoms_have_none(rt: HostRuntime) -> Result<(), AllocError> {
    let alloc = rt.alloc();
    let formula = Formula::Pred {
        symbol: 0,
        sorts: List::new(alloc),
        args: List::new(alloc),
    };
    assert!(rt; rows(alloc, true, formula)?.is_empty());
    assert!(rt; rows(alloc, false, Formula::Not(atom(alloc, 0)?))?.is_empty());
    Ok(())
}
