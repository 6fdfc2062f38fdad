//! The axioms that definitions are.

ghost use Rattle.std.specs.Prelude.{◌≡◌, ℕ, List, map, IfOk};
ghost use Rattle.ae_declaration_typing.specs.Definitions.{function_axiom, predicate_axiom};
ghost use Rattle.ae_declaration_typing.specs.Inner.Additions.{AddsTrees, AddsTree, AddsClaim, own_args};
ghost use Rattle.ae_core.specs.declared.terms.Head.TheVariants as head;
ghost use Rattle.ae_elab.specs.Declarations as rule;
ghost use Rattle.ae_elab.specs.Environments.{entries};
ghost use Rattle.ae_elab.specs.Nodes.{IsTree, IsClaim};
ghost use Rattle.ae_elab.specs.Trees as tree;
ghost use Rattle.ae_elab.specs.Trees.{Tree, Claim};
ghost use Rattle.ae_elab.specs.Typings.{bound_in};

use ae_core::lists::List;
use ae_core::terms::{Head, Sort};
use ae_elab::environment::Environment;
use ae_elab::nodes::{Connective, Node, Pattern, Relation};
use ae_elab::typings::Bound;
use ae_syntax::exprs::Quantifier;
use ae_syntax::spans::Span;
use ae_typing::patterns::{variable_numbers, variable_sorts};
use std::alloc::{AllocError, Global};

// The variables of formal parameters among the nodes.
fn formal_nodes<'a>(
    alloc: Global,
    environment: &mut Environment<'a>,
    bounds: &[Bound],
) -> Result<List<usize>, AllocError>
    ensures { IfOk result (AddsTrees environment.old environment.new (own_args bounds.now)) }
{
    let mut places = List::new(alloc);
    for bound in bounds {
        let place = environment.push(Node::Variable(bound.number))?;
        places.push(place)?;
    }
    Ok(places)
}

// The type variables of a declaration that has written so many.
fn rigids(alloc: Global, count: usize) -> Result<List<Sort>, AllocError>
    ensures { IfOk result (λ ss. ss ≡ rule.rigids 0 count) }
{
    let mut sorts = List::new(alloc);
    for number in 0..count {
        sorts.push(Sort::Rigid(number))?;
    }
    Ok(sorts)
}

// A defined symbol applied to its formal parameters, as a term.
fn application<'a>(
    alloc: Global,
    environment: &mut Environment<'a>,
    symbol: usize,
    vars: usize,
    bounds: &[Bound],
) -> Result<usize, AllocError>
    ensures { IfOk result (AddsTree environment.old environment.new (tree.apply (head.Symbol symbol) (rule.rigids 0 vars) (own_args bounds.now))) }
{
    let sorts = rigids(alloc, vars)?;
    let args = formal_nodes(alloc, environment, bounds)?;
    let node = Node::Apply {
        head: Head::Symbol(symbol),
        sorts,
        args,
    };
    let place = environment.push(node)?;
    Ok(place)
}

// A defined predicate applied to its formal parameters, as a formula.
fn atom<'a>(
    alloc: Global,
    environment: &mut Environment<'a>,
    symbol: usize,
    vars: usize,
    bounds: &[Bound],
) -> Result<usize, AllocError>
    ensures { IfOk result (AddsClaim environment.old environment.new (tree.predicate symbol (rule.rigids 0 vars) (own_args bounds.now))) }
{
    let sorts = rigids(alloc, vars)?;
    let args = formal_nodes(alloc, environment, bounds)?;
    let node = Node::Predicate {
        symbol,
        sorts,
        args,
    };
    let place = environment.push(node)?;
    Ok(place)
}

// A formula for all formal parameters, with the defined application as the trigger; without parameters the formula itself.
fn for_all<'a>(
    alloc: Global,
    environment: &mut Environment<'a>,
    bounds: &[Bound],
    place: Span,
    head: usize,
    claim: usize,
) -> Result<usize, AllocError>
    ensures { IfOk result (λ n. (text : List ℕ) (t : Tree) (f : Claim) → IsTree (entries environment.old) head t → IsClaim (entries environment.old) claim f
        → AddsClaim environment.old environment.new (rule.defining (map (bound_in text) bounds.now) place t f) n) }
{
    if bounds.is_empty() {
        return Ok(claim);
    }
    let variables = variable_numbers(alloc, bounds)?;
    let sorts = variable_sorts(alloc, bounds)?;
    let mut terms = List::new(alloc);
    terms.push(head)?;
    let mut triggers = List::new(alloc);
    triggers.push(Pattern { place, terms })?;
    let node = Node::Quantified {
        quantifier: Quantifier::Forall,
        variables,
        sorts,
        triggers,
        body: claim,
    };
    let whole = environment.push(node)?;
    Ok(whole)
}

/// The axiom of a function's definition; `value` is the place of its body among the nodes.
pub fn function_claim<'a>(
    alloc: Global,
    environment: &mut Environment<'a>,
    bounds: &[Bound],
    place: Span,
    symbol: usize,
    vars: usize,
    value: usize,
) -> Result<usize, AllocError>
    ensures { IfOk result (λ n. (text : List ℕ) (t : Tree) → IsTree (entries environment.old) value t
        → AddsClaim environment.old environment.new (function_axiom (map (bound_in text) bounds.now) place symbol vars t) n) }
{
    let head = application(alloc, environment, symbol, vars, bounds)?;
    let node = Node::Relation {
        relation: Relation::Equal,
        left: head,
        right: value,
    };
    let equation = environment.push(node)?;
    let whole = for_all(alloc, environment, bounds, place, head, equation)?;
    Ok(whole)
}

/// The axiom of a predicate's definition; `body` is the place of its body among the nodes.
pub fn predicate_claim<'a>(
    alloc: Global,
    environment: &mut Environment<'a>,
    bounds: &[Bound],
    place: Span,
    symbol: usize,
    vars: usize,
    body: usize,
) -> Result<usize, AllocError>
    ensures { IfOk result (λ n. (text : List ℕ) (f : Claim) → IsClaim (entries environment.old) body f
        → AddsClaim environment.old environment.new (predicate_axiom (map (bound_in text) bounds.now) place symbol vars f) n) }
{
    let head = application(alloc, environment, symbol, vars, bounds)?;
    let left = atom(alloc, environment, symbol, vars, bounds)?;
    let node = Node::Joined {
        connective: Connective::Equivalence,
        left,
        right: body,
    };
    let equivalence = environment.push(node)?;
    let whole = for_all(alloc, environment, bounds, place, head, equivalence)?;
    Ok(whole)
}
