//! The term or the formula at a place among the nodes. The parts of a node stand at places before it; where none stands there
//! or one of the other kind, the part is `void`, or `false`.

ghost use Rattle.std.specs.Prelude.{◌≡◌, ℕ, List, Some, IfOk};
ghost use Rattle.std.specs.Option.{unwrap_or};
ghost use Rattle.ae_core.specs.declared.terms.Sort.{Sort};
ghost use Rattle.ae_elab.specs.Elaboration.{formula_in, term_cases, terms_cases, triggers_in};
ghost use Rattle.ae_elab.specs.Nodes.{claim_at, claim_in, entries_of, entry_of, patterns_at, tree_at, tree_in, trees_at};
ghost use Rattle.ae_elab.specs.Trees.{Tree, claim_of, claim_of_head, holds};
ghost use Rattle.ae_lifting.specs.Lifting.{cases_of};
ghost use Rattle.ae_translation.specs.Listed.{listed};
ghost use Rattle.ae_types.specs.Bound.{bound as sorts_of};

use crate::atoms::{between, predicate, said};
use crate::connectives::{conditional, denied, falsity, joined_by, quantified, truth};
use crate::records::with_fields;
use crate::sorts::{head_of, put_all};
use crate::terms::{application, behind, chosen, no_terms, single, void, with_trigger};
use crate::variables::{distance, inside};
use ae_core::formulas::Formula;
use ae_core::lists::{Boxed, List, at};
use ae_core::terms::{Head, Term};
use ae_elab::nodes::{Node, Pattern};
use ae_elaboration::elaboration::true_term;
use ae_lifting::cases::{Atom, Cases};
use ae_types::Bindings;
use std::alloc::{AllocError, Global};

// The formula that `true` or `false` is.
fn truth_of(head: Head) -> Option<Formula>
    ensures { (m : ℕ → Sort) (env : List ℕ) (t : Tree) → unwrap_or result (formula_in m env (holds t)) ≡ formula_in m env (claim_of_head head (holds t)) }
{
    match head {
        Head::True => Some(Formula::True),
        Head::False => Some(Formula::False),
        Head::Symbol(_) => None,
        Head::Field { of: _, place: _ } => None,
        Head::Build(_) => None,
        Head::Int(_) => None,
        Head::Real(_) => None,
        Head::Void => None,
    }
}

/// The term at a place among the nodes, in its cases: one term in each. `bindings` is the typing, and `bound` are the bound
/// variables, the innermost first.
#[cycle(translation)]
pub fn cases_boxed(
    alloc: Global,
    bindings: &Bindings,
    bound: &[usize],
    nodes: &[Node],
    place: usize,
) -> Result<Boxed<Cases>, AllocError>
    ensures { IfOk result (λ cs. cases_of cs ≡ listed (term_cases (sorts_of bindings.now) bound.now (tree_at (entries_of nodes.now) place))) }
{
    match at(nodes, place) {
        Some(node) => {
            let before = &nodes[..place];
            node_cases(alloc, bindings, bound, before, node)
        }
        None => void(alloc),
    }
}

// The term that a node is behind these.
#[cycle(translation)]
fn node_cases(
    alloc: Global,
    bindings: &Bindings,
    bound: &[usize],
    nodes: &[Node],
    node: &Node,
) -> Result<Boxed<Cases>, AllocError>
    ensures { IfOk result (λ cs. cases_of cs ≡ listed (term_cases (sorts_of bindings.now) bound.now (tree_in (Some (entry_of (entries_of nodes.now) node.now))))) }
{
    match node {
        Node::Variable(number) => single(alloc, Term::Bound(distance(bound, *number))),
        Node::Numeral { top, bottom, real } => {
            let numeral = Term::Num {
                top: *top,
                bottom: *bottom,
                real: *real,
            };
            single(alloc, numeral)
        }
        Node::Apply { head, sorts, args } => {
            let terms = all_cases(alloc, bindings, bound, nodes, args.as_slice());
            let sorts = put_all(alloc, bindings, sorts.as_slice());
            application(alloc, terms, Ok(*head), sorts)
        }
        Node::Operation { op, sort, args } => {
            let terms = all_cases(alloc, bindings, bound, nodes, args.as_slice());
            let head = head_of(bindings, *op, sort);
            application(alloc, terms, head, Ok(List::new(alloc)))
        }
        Node::Build {
            of,
            sorts,
            count,
            places,
            values,
        } => {
            let base = single(alloc, true_term(alloc));
            let terms = all_cases(alloc, bindings, bound, nodes, values.as_slice());
            let sorts = put_all(alloc, bindings, sorts.as_slice());
            with_fields(alloc, base, terms, *of, sorts, *count, places.as_slice())
        }
        Node::Update {
            of,
            sorts,
            count,
            base,
            places,
            values,
        } => {
            let base = cases_boxed(alloc, bindings, bound, nodes, *base);
            let terms = all_cases(alloc, bindings, bound, nodes, values.as_slice());
            let sorts = put_all(alloc, bindings, sorts.as_slice());
            with_fields(alloc, base, terms, *of, sorts, *count, places.as_slice())
        }
        Node::Choice {
            condition,
            positive,
            negative,
        } => {
            let condition = formula_boxed(alloc, bindings, bound, nodes, *condition);
            let yes = cases_boxed(alloc, bindings, bound, nodes, *positive);
            let no = cases_boxed(alloc, bindings, bound, nodes, *negative);
            chosen(alloc, condition, yes, no)
        }
        _ => void(alloc),
    }
}

// The terms at places, one after another, in their cases.
#[cycle(translation)]
fn all_cases(
    alloc: Global,
    bindings: &Bindings,
    bound: &[usize],
    nodes: &[Node],
    places: &[usize],
) -> Result<Boxed<Cases>, AllocError>
    ensures { IfOk result (λ cs. cases_of cs ≡ terms_cases (sorts_of bindings.now) bound.now (trees_at (entries_of nodes.now) places.now)) }
{
    let none = no_terms(alloc)?;
    let mut all = none;
    for place in places {
        let next = cases_boxed(alloc, bindings, bound, nodes, *place);
        all = behind(alloc, Ok(all), next)?;
    }
    Ok(all)
}

/// The formula at a place among the nodes. `bindings` is the typing, and `bound` are the bound variables, the innermost first.
#[cycle(translation)]
pub fn formula_boxed(
    alloc: Global,
    bindings: &Bindings,
    bound: &[usize],
    nodes: &[Node],
    place: usize,
) -> Result<Boxed<Formula>, AllocError>
    ensures { IfOk result (λ f. f ≡ formula_in (sorts_of bindings.now) bound.now (claim_at (entries_of nodes.now) place)) }
{
    match at(nodes, place) {
        Some(node) => {
            let before = &nodes[..place];
            node_formula(alloc, bindings, bound, before, node)
        }
        None => falsity(alloc),
    }
}

// The formula that a node is behind these.
#[cycle(translation)]
fn node_formula(
    alloc: Global,
    bindings: &Bindings,
    bound: &[usize],
    nodes: &[Node],
    node: &Node,
) -> Result<Boxed<Formula>, AllocError>
    ensures { IfOk result (λ f. f ≡ formula_in (sorts_of bindings.now) bound.now (claim_in (Some (entry_of (entries_of nodes.now) node.now)))) }
{
    match node {
        Node::Truth => truth(alloc),
        Node::Relation {
            relation,
            left,
            right,
        } => {
            let left = cases_boxed(alloc, bindings, bound, nodes, *left);
            let right = cases_boxed(alloc, bindings, bound, nodes, *right);
            between(alloc, *relation, left, right)
        }
        Node::Predicate {
            symbol,
            sorts,
            args,
        } => {
            let terms = all_cases(alloc, bindings, bound, nodes, args.as_slice());
            let atom = predicate(alloc, bindings, *symbol, sorts.as_slice());
            said(alloc, terms, atom)
        }
        Node::Distinct(args) => {
            let terms = all_cases(alloc, bindings, bound, nodes, args.as_slice());
            said(alloc, terms, Ok(Atom::Distinct))
        }
        Node::Holds(term) => holds_at(alloc, bindings, bound, nodes, *term),
        Node::Negation(part) => {
            let part = formula_boxed(alloc, bindings, bound, nodes, *part);
            denied(alloc, part)
        }
        Node::Joined {
            connective,
            left,
            right,
        } => {
            let left = formula_boxed(alloc, bindings, bound, nodes, *left);
            let right = formula_boxed(alloc, bindings, bound, nodes, *right);
            joined_by(alloc, *connective, left, right)
        }
        Node::Conditional {
            condition,
            positive,
            negative,
        } => {
            let condition = formula_boxed(alloc, bindings, bound, nodes, *condition);
            let yes = formula_boxed(alloc, bindings, bound, nodes, *positive);
            let no = formula_boxed(alloc, bindings, bound, nodes, *negative);
            conditional(alloc, condition, yes, no)
        }
        Node::Quantified {
            quantifier,
            variables,
            sorts,
            triggers,
            body,
        } => {
            let inner = inside(alloc, variables.as_slice(), bound)?;
            let sorts = put_all(alloc, bindings, sorts.as_slice());
            let patterns = triggers.as_slice();
            let triggers = triggers_at(alloc, bindings, inner.as_slice(), nodes, patterns);
            let body = formula_boxed(alloc, bindings, inner.as_slice(), nodes, *body);
            quantified(alloc, *quantifier, sorts, triggers, body)
        }
        _ => falsity(alloc),
    }
}

// What the term at a place is as a formula.
#[cycle(translation)]
fn holds_at(
    alloc: Global,
    bindings: &Bindings,
    bound: &[usize],
    nodes: &[Node],
    place: usize,
) -> Result<Boxed<Formula>, AllocError>
    ensures { IfOk result (λ f. f ≡ formula_in (sorts_of bindings.now) bound.now (claim_of (tree_at (entries_of nodes.now) place))) }
{
    match at(nodes, place) {
        Some(node) => {
            let before = &nodes[..place];
            node_holds(alloc, bindings, bound, before, node)
        }
        None => said(alloc, void(alloc), Ok(Atom::Holds)),
    }
}

// What the term that a node is behind these is as a formula.
#[cycle(translation)]
fn node_holds(
    alloc: Global,
    bindings: &Bindings,
    bound: &[usize],
    nodes: &[Node],
    node: &Node,
) -> Result<Boxed<Formula>, AllocError>
    ensures { IfOk result (λ f. f ≡ formula_in (sorts_of bindings.now) bound.now (claim_of (tree_in (Some (entry_of (entries_of nodes.now) node.now))))) }
{
    match node {
        Node::Choice {
            condition,
            positive,
            negative,
        } => {
            let condition = formula_boxed(alloc, bindings, bound, nodes, *condition);
            let yes = holds_at(alloc, bindings, bound, nodes, *positive);
            let no = holds_at(alloc, bindings, bound, nodes, *negative);
            conditional(alloc, condition, yes, no)
        }
        Node::Apply {
            head,
            sorts: _,
            args: _,
        } => match truth_of(*head) {
            Some(formula) => Boxed::new(alloc, formula),
            None => {
                let application = node_cases(alloc, bindings, bound, nodes, node);
                said(alloc, application, Ok(Atom::Holds))
            }
        },
        _ => {
            let other = node_cases(alloc, bindings, bound, nodes, node);
            said(alloc, other, Ok(Atom::Holds))
        }
    }
}

/// The triggers of a block, whose variables are among the bound ones.
#[cycle(translation)]
pub fn triggers_at(
    alloc: Global,
    bindings: &Bindings,
    bound: &[usize],
    nodes: &[Node],
    patterns: &[Pattern],
) -> Result<List<List<Term>>, AllocError>
    ensures { IfOk result (λ ts. ts ≡ triggers_in (sorts_of bindings.now) bound.now (patterns_at (entries_of nodes.now) patterns.now)) }
{
    let mut all = List::new(alloc);
    for pattern in patterns {
        let terms = all_cases(alloc, bindings, bound, nodes, pattern.terms.as_slice());
        all = with_trigger(all, terms)?;
    }
    Ok(all)
}
