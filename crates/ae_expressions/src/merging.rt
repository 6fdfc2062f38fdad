//! The triggers of a formula that a `let` names, where it is merged with the block round it.

ghost use Rattle.std.specs.Prelude.{◌≡◌, ◌++◌, IfErr, IfOk, OnOk};
ghost use Rattle.ae_elab.specs.Formulas as rules;
ghost use Rattle.ae_elab.specs.Nodes.{claim_at, entries_of, patterns_at};
ghost use Rattle.ae_elab.specs.Steps.{AreHeld, AreFailed};
ghost use Rattle.ae_elab.specs.Typings.{around_in};

use crate::marks::covers;
use ae_core::lists::{List, at};
use ae_elab::faults::TypeFault;
use ae_elab::nodes::{Node, Pattern};
use ae_elab::typings::Around;
use ae_syntax::exprs::Quantifier;
use std::alloc::{AllocError, Global};

// Whether two blocks have one quantifier.
fn same_quantifier(left: Quantifier, right: Quantifier) -> bool
    ensures { result ≡ rules.same_quantifier left right }
{
    match left {
        Quantifier::Forall => match right {
            Quantifier::Forall => true,
            Quantifier::Exists => false,
        },
        Quantifier::Exists => match right {
            Quantifier::Forall => false,
            Quantifier::Exists => true,
        },
    }
}

// Variables, and then others.
fn joined(alloc: Global, first: &[usize], second: &[usize]) -> Result<List<usize>, AllocError>
    ensures { IfOk result (λ all. all ≡ first.now ++ second.now) }
{
    let mut all = List::new(alloc);
    for variable in first {
        all.push(*variable)?;
    }
    for other in second {
        all.push(*other)?;
    }
    Ok(all)
}

// Each of these triggers has each of the variables.
fn cover_all(
    alloc: Global,
    variables: &[usize],
    nodes: &[Node],
    triggers: &[Pattern],
) -> Result<(), TypeFault>
    ensures met { OnOk result (AreHeld (rules.covering_all variables.now (patterns_at (entries_of nodes.now) triggers.now))) }
    ensures fault { IfErr result (AreFailed (rules.covering_all variables.now (patterns_at (entries_of nodes.now) triggers.now))) }
{
    for trigger in triggers {
        if !covers(alloc, variables, nodes, trigger.terms.as_slice())? {
            return Err(TypeFault::BadTrigger {
                from: trigger.place.from as usize,
                to: trigger.place.to as usize,
            });
        }
    }
    Ok(())
}

// The formula at a place is merged with a block of this quantifier and these variables.
fn merge(
    alloc: Global,
    quantifier: Quantifier,
    variables: &[usize],
    nodes: &[Node],
    claim: usize,
) -> Result<(), TypeFault>
    ensures met { OnOk result (AreHeld (rules.merging quantifier variables.now (claim_at (entries_of nodes.now) claim))) }
    ensures fault { IfErr result (AreFailed (rules.merging quantifier variables.now (claim_at (entries_of nodes.now) claim))) }
{
    let Some(node) = at(nodes, claim) else {
        return Ok(());
    };
    let Node::Quantified {
        quantifier: inner,
        variables: more,
        sorts: _,
        triggers,
        body,
    } = node
    else {
        return Ok(());
    };
    if !same_quantifier(quantifier, *inner) {
        return Ok(());
    }
    let all = joined(alloc, variables, more.as_slice())?;
    let before = &nodes[..claim];
    if triggers.is_empty() {
        merge(alloc, quantifier, all.as_slice(), before, *body)
    } else {
        cover_all(alloc, all.as_slice(), before, triggers.as_slice())
    }
}

/// A formula that a `let` names, as the body of the block round it.
pub fn merge_into(
    alloc: Global,
    around: &Option<Around>,
    nodes: &[Node],
    claim: usize,
) -> Result<(), TypeFault>
    ensures met { OnOk result (AreHeld (rules.merging_into (around_in around.now) (claim_at (entries_of nodes.now) claim))) }
    ensures fault { IfErr result (AreFailed (rules.merging_into (around_in around.now) (claim_at (entries_of nodes.now) claim))) }
{
    match around {
        None => Ok(()),
        Some(block) => merge(
            alloc,
            block.quantifier,
            block.variables.as_slice(),
            nodes,
            claim,
        ),
    }
}
