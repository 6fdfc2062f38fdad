//! Short proofs with lines that aren't used.
use ae_core::lists::List;
use ae_core::proofs::{ClauseLine, Proof};
use ae_trim::axioms::axioms_of;
use ae_trim::trim::{can_be_trimmed, trim};
use std::alloc::{AllocError, Global};

fn axiom(alloc: Global, axiom: usize) -> ClauseLine {
    ClauseLine::Hyp {
        axiom,
        sorts: List::new(alloc),
    }
}

/// The empty clause by hints.
fn empty(alloc: Global, hints: &[usize]) -> Result<ClauseLine, AllocError> {
    Ok(ClauseLine::Rup {
        clause: List::new(alloc),
        hints: List::from_slice(alloc, hints)?,
    })
}

/// Axioms 7, 2, 7 and 4, two lines by hints between them, and the last line by these hints.
fn proof(alloc: Global, hints: &[usize]) -> Result<Proof, AllocError> {
    let mut lines = List::new(alloc);
    lines.push(axiom(alloc, 7))?;
    lines.push(axiom(alloc, 2))?;
    lines.push(empty(alloc, &[0])?)?;
    lines.push(axiom(alloc, 7))?;
    lines.push(empty(alloc, &[1, 3])?)?;
    lines.push(axiom(alloc, 4))?;
    lines.push(empty(alloc, hints)?)?;
    Ok(Proof { lines })
}

/// The hints of each line, and the axiom of each line that has one.
fn shape(alloc: Global, proof: &Proof) -> Result<Vec<usize>, AllocError> {
    let mut shape = Vec::new(alloc);
    for line in proof.lines.as_slice() {
        match line {
            ClauseLine::Hyp { axiom, .. } => shape.push(*axiom)?,
            ClauseLine::Rup { hints, .. } => shape.extend_from_slice(hints.as_slice())?,
            _ => {}
        }
    }
    Ok(shape)
}

#[test]
fn unused_lines_go(rt: HostRuntime) -> Result<(), AllocError> {
    let alloc = rt.alloc();
    let proof = proof(alloc, &[4, 1])?;
    let lawful = can_be_trimmed(&proof);
    assert!(rt; lawful);
    if lawful {
        let trimmed = trim(alloc, &proof)?;
        assert_eq!(rt; shape(alloc, &trimmed)?, vec![in alloc; 2, 7, 0, 1, 2, 0]?);
        let axioms = axioms_of(alloc, &trimmed)?;
        assert!(rt; *axioms.as_slice() == *[2, 7].as_slice());
    }
    Ok(())
}

#[test]
fn hints_of_later_lines_are_seen(rt: HostRuntime) -> Result<(), AllocError> {
    let alloc = rt.alloc();
    assert!(rt; !can_be_trimmed(&proof(alloc, &[4, 6])?));
    assert!(rt;
        !can_be_trimmed(&Proof {
            lines: List::new(alloc)
        })
    );
    Ok(())
}
