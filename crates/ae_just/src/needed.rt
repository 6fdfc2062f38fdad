//! Which steps a step rests on, and their places in a derivation.
ghost use Rattle.std.specs.Prelude.{◌≡◌, ◌<◌, length, map, IfOk, OnOk};
ghost use Rattle.std.specs.BTreeSet.{keys};
ghost use Rattle.ae_just.specs.Steps.{premises};
ghost use Rattle.ae_just.specs.Needed.{AreNeeded, IsRising};
ghost use Rattle.ae_just.specs.Inner.Pending.{AreJoined, RestOnEarlier};
ghost use Rattle.ae_just.specs.Inner.Emitting as emitting;

use crate::steps::{Rule, Step};
use ae_core::lists::List;
use ae_core::proofs::Scaled;
use std::alloc::{AllocError, Global};
use std::collections::BTreeSet;

fn add_steps(pending: &mut BTreeSet<usize>, steps: &[usize]) -> Result<(), AllocError>
    ensures { OnOk result (AreJoined (keys pending.old) steps.now (keys pending.new)) }
{
    for step in steps {
        pending.insert(*step)?;
    }
    Ok(())
}

fn add_parts(pending: &mut BTreeSet<usize>, parts: &[Scaled]) -> Result<(), AllocError>
    ensures { OnOk result (AreJoined (keys pending.old) (map (λ p. p.line) parts.now) (keys pending.new)) }
{
    for part in parts {
        pending.insert(part.line)?;
    }
    Ok(())
}

/// Adds the steps that a rule rests on.
fn add_premises(pending: &mut BTreeSet<usize>, rule: &Rule) -> Result<(), AllocError>
    ensures { OnOk result (AreJoined (keys pending.old) (premises rule.now) (keys pending.new)) }
{
    match rule {
        Rule::Hyp(_) => add_steps(pending, &[]),
        Rule::Refl => add_steps(pending, &[]),
        Rule::Sym(k) => add_steps(pending, &[*k]),
        Rule::Trans(j, k) => add_steps(pending, &[*j, *k]),
        Rule::Cong(ks) => add_steps(pending, ks.as_slice()),
        Rule::Ac => add_steps(pending, &[]),
        Rule::Lin { parts, .. } => add_parts(pending, parts.as_slice()),
        Rule::Field => add_steps(pending, &[]),
        Rule::Fields(ks) => add_steps(pending, ks.as_slice()),
    }
}

/// The numbers of the steps that a step rests on, rising. Other steps aren't looked at.
pub fn needed(alloc: Global, steps: &[Step], id: usize) -> Result<List<usize>, AllocError>
    requires id { id < length steps.now }
    requires earlier { RestOnEarlier steps.now }
    ensures { IfOk result (λ ks. AreNeeded steps.now id ks) }
{
    let mut pending = BTreeSet::new(alloc);
    pending.insert(id)?;
    let mut found = Vec::new(alloc);
    while let Some(step) = pending.pop_last() {
        found.push(step)?;
        add_premises(&mut pending, &steps[step].rule)?;
    }
    found.reverse();
    Ok(List::from_vec(found))
}

/// The place of a step among those that are needed.
pub fn place(needed: &[usize], step: usize) -> usize
    requires { IsRising needed.now }
    ensures { result ≡ emitting.place needed.now step }
{
    match needed.binary_search(&step) {
        Ok(place) => place,
        Err(_) => needed.len(),
    }
}
