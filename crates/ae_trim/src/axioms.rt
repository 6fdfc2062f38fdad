//! The axioms on which a proof rests.
ghost use Rattle.std.specs.Prelude.{◌≡◌, ◌++◌, IfOk, OnOk};
ghost use Rattle.ae_trim.specs.Axioms.{AreAxioms, axiom_in, axioms_in};

use ae_core::lists::List;
use ae_core::proofs::{ClauseLine, Proof};
use std::alloc::{AllocError, Global};

/// Adds the place of the axiom that a line brings in.
fn add_axiom(places: &mut Vec<usize>, line: &ClauseLine) -> Result<(), AllocError>
    ensures { OnOk result (places.new.items ≡ places.old.items ++ axiom_in line.now) }
{
    if let ClauseLine::Hyp { axiom, .. } = line {
        places.push(*axiom)?;
    }
    Ok(())
}

/// The places of the axioms in the order of the lines.
fn named_axioms(alloc: Global, lines: &[ClauseLine]) -> Result<Vec<usize>, AllocError>
    ensures { IfOk result (λ places. places.items ≡ axioms_in lines.now) }
{
    let mut places = Vec::new(alloc);
    for line in lines {
        add_axiom(&mut places, line)?;
    }
    Ok(places)
}

/// The places in the `hyp` lines of a proof, rising, each once.
pub fn axioms_of(alloc: Global, proof: &Proof) -> Result<List<usize>, AllocError>
    ensures { IfOk result (AreAxioms proof.now) }
{
    let mut places = named_axioms(alloc, proof.lines.as_slice())?;
    places.sort_unstable();
    places.dedup();
    Ok(List::from_vec(places))
}
