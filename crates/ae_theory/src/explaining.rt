//! The lines that equations on a way give.
ghost use Rattle.std.specs.Prelude.{◌≡◌, ◌<◌, ◌≤◌, ◌+◌, ◌-◌, ◌++◌, ◌∷◌, [], ℕ, List, true, false, cond, length, map, slice_get, Some, IfOk, OnOk};
ghost use Rattle.std.specs.List.{AllByRecursion, Contains};
ghost use Rattle.ae_theory.specs.declared.nodes.Edge.TheVariants.{Apart};
ghost use Rattle.ae_rules.specs.Built.{IsBuiltEquation};
ghost use Rattle.ae_rules.specs.Derivations.{IsContradictory, clause_ok};
ghost use Rattle.ae_theory.specs.Paths.{list_at};
ghost use Rattle.ae_theory.specs.Names.{terms_in};
ghost use Rattle.ae_theory.specs.Noting.{IsBlockOf};
ghost use Rattle.ae_theory.specs.Classes.{AllFit, IsConflict, tagged};
ghost use Rattle.ae_theory.specs.Inner.Trees.{IsTree};
ghost use Rattle.ae_theory.specs.declared.nodes.Node.{Node};
ghost use Rattle.ae_core.specs.Sorts.{sort_of};
ghost use Rattle.ae_core.specs.declared.formulas.Formula.{Eq};
ghost use Rattle.ae_core.specs.declared.formulas.Lit.{Lit};
ghost use Rattle.ae_core.specs.declared.problems.Signature.{Signature};
ghost use Rattle.ae_core.specs.declared.terms.Sort.{Sort};
ghost use Rattle.ae_core.specs.declared.terms.Term.{Term};
ghost use Rattle.ae_core.specs.declared.proofs.EqLine.TheVariants.{EqHyp, EqRefl, EqSym, EqTrans};
ghost use Rattle.ae_rules.specs.Lines.{Given};
ghost use Rattle.ae_theory.specs.Inner.Hops.{Pushes, Shows, IsPath, lit_of, tag_of, AreHypotheses};

use crate::chains::{Hop, push_path};
use crate::nodes::{Edge, Node};
use crate::theory::Explained;
use ae_core::copies::{copy_lit, copy_term};
use ae_core::formulas::{Formula, Lit};
use ae_core::lists::List;
use ae_core::proofs::{Block, Deriv, Ending, EqLine};
use ae_core::terms::Term;
use ae_store::store::Store;
use std::alloc::{AllocError, Global};

/// The literal of an equation on a way.
fn lit_at(nodes: &[Node], hop: Hop) -> &Lit
    requires { hop.node < length nodes.now }
    ensures { result.now ≡ lit_of nodes.now hop }
{
    &nodes[hop.node].lit
}

/// The tag of an equation on a way.
fn tag_at(nodes: &[Node], hop: Hop) -> usize
    requires { hop.node < length nodes.now }
    ensures { result ≡ tag_of nodes.now hop }
{
    nodes[hop.node].tag
}

/// The equation of a number on a way.
fn hop_at(hops: &[Hop], number: usize) -> Hop
    requires { number < length hops.now }
    ensures { slice_get hops.now number ≡ Some result }
{
    hops[number]
}

/// The literals of the equations of a way.
fn hypotheses(alloc: Global, nodes: &[Node], hops: &[Hop]) -> Result<List<Lit>, AllocError>
    requires within { AllByRecursion (λ h. h.node < length nodes.now) hops.now }
    ensures { IfOk result (λ ls. ls ≡ map (lit_of nodes.now) hops.now) }
{
    let mut lits = List::new(alloc);
    for hop in hops {
        lits.push(copy_lit(alloc, lit_at(nodes, *hop))?)?;
    }
    Ok(lits)
}

/// The tags of the equations of a way.
fn tags_of(alloc: Global, nodes: &[Node], hops: &[Hop]) -> Result<List<usize>, AllocError>
    requires within { AllByRecursion (λ h. h.node < length nodes.now) hops.now }
    ensures { IfOk result (λ ts. ts ≡ map (tag_of nodes.now) hops.now) }
{
    let mut tags = List::new(alloc);
    for hop in hops {
        tags.push(tag_at(nodes, *hop))?;
    }
    Ok(tags)
}

/// The literals of the equations of a way, and that of a node behind them.
fn all_hypotheses(
    alloc: Global,
    nodes: &[Node],
    hops: &[Hop],
    number: usize,
) -> Result<List<Lit>, AllocError>
    requires within { AllByRecursion (λ h. h.node < length nodes.now) hops.now }
    requires number { number < length nodes.now }
    ensures { IfOk result (λ ls. ls ≡ map (lit_of nodes.now) hops.now ++ lit_of nodes.now (record { node = number; turned = false }) ∷ []) }
{
    let mut lits = hypotheses(alloc, nodes, hops)?;
    let last = Hop {
        node: number,
        turned: false,
    };
    lits.push(copy_lit(alloc, lit_at(nodes, last))?)?;
    Ok(lits)
}

/// The tags of the equations of a way, and that of a node behind them.
fn all_tags(
    alloc: Global,
    nodes: &[Node],
    hops: &[Hop],
    number: usize,
) -> Result<List<usize>, AllocError>
    requires within { AllByRecursion (λ h. h.node < length nodes.now) hops.now }
    requires number { number < length nodes.now }
    ensures { IfOk result (λ ts. ts ≡ map (tag_of nodes.now) hops.now ++ tag_of nodes.now (record { node = number; turned = false }) ∷ []) }
{
    let mut tags = tags_of(alloc, nodes, hops)?;
    let last = Hop {
        node: number,
        turned: false,
    };
    tags.push(tag_at(nodes, last))?;
    Ok(tags)
}

/// Behind lines that equate a term with the left side of an equation, which is this hypothesis, adds lines that equate it with the right one.
fn push_on(
    alloc: Global,
    left: &Term,
    right: &Term,
    hyp: usize,
    start: &Term,
    lines: &mut List<EqLine>,
) -> Result<(), AllocError>
    requires some { 0 < length lines.old }
    ensures { OnOk result (lines.new ≡ (lines.old ++ EqHyp left.now right.now hyp ∷ []) ++ EqTrans start.now right.now (length lines.old - 1) (length lines.old) ∷ []) }
{
    let second = lines.len();
    lines.push(EqLine::EqHyp {
        left: copy_term(alloc, left)?,
        right: copy_term(alloc, right)?,
        hyp,
    })?;
    lines.push(EqLine::EqTrans {
        left: copy_term(alloc, start)?,
        right: copy_term(alloc, right)?,
        first: second - 1,
        second,
    })
}

/// Behind lines that equate a term with the right side of an equation, which is this hypothesis, adds lines that equate it with the left one.
fn push_turned(
    alloc: Global,
    left: &Term,
    right: &Term,
    hyp: usize,
    start: &Term,
    lines: &mut List<EqLine>,
) -> Result<(), AllocError>
    requires some { 0 < length lines.old }
    ensures { OnOk result (lines.new ≡ ((lines.old ++ EqHyp left.now right.now hyp ∷ []) ++ EqSym right.now left.now (length lines.old) ∷ [])
        ++ EqTrans start.now left.now (length lines.old - 1) (length lines.old + 1) ∷ []) }
{
    let line = lines.len();
    lines.push(EqLine::EqHyp {
        left: copy_term(alloc, left)?,
        right: copy_term(alloc, right)?,
        hyp,
    })?;
    lines.push(EqLine::EqSym {
        left: copy_term(alloc, right)?,
        right: copy_term(alloc, left)?,
        line,
    })?;
    let second = lines.len() - 1;
    lines.push(EqLine::EqTrans {
        left: copy_term(alloc, start)?,
        right: copy_term(alloc, left)?,
        first: line - 1,
        second,
    })
}

/// Behind lines that equate a term with one side of an equation, which is this hypothesis, adds lines that equate it with the other side.
fn push_hop(
    alloc: Global,
    lit: &Lit,
    turned: bool,
    hyp: usize,
    start: &Term,
    lines: &mut List<EqLine>,
) -> Result<(), AllocError>
    requires some { 0 < length lines.old }
    ensures shows { OnOk result (Pushes lit.now turned hyp start.now lines.old lines.new) }
    ensures some { OnOk result (0 < length lines.new) }
{
    match &lit.formula {
        Formula::Eq { left, right } => {
            if turned {
                push_turned(alloc, left, right, hyp, start, lines)
            } else {
                push_on(alloc, left, right, hyp, start, lines)
            }
        }
        _ => Ok(()),
    }
}

/// The line that equates a term with itself.
fn first_line(alloc: Global, start: &Term) -> Result<List<EqLine>, AllocError>
    ensures { IfOk result (λ ls. ls ≡ EqRefl start.now start.now ∷ []) }
{
    let mut lines = List::new(alloc);
    lines.push(EqLine::EqRefl {
        left: copy_term(alloc, start)?,
        right: copy_term(alloc, start)?,
    })?;
    Ok(lines)
}

/// The lines that a way from a name gives: the last one equates the two ends.
fn lines_of(
    alloc: Global,
    store: &Store,
    nodes: &[Node],
    hops: &[Hop],
    hyps: &[Lit],
    from: usize,
) -> Result<List<EqLine>, AllocError>
    requires fits { AllFit store.now nodes.now }
    requires from { from < length store.now.nodes }
    requires within { AllByRecursion (λ h. h.node < length nodes.now) hops.now }
    ensures some { IfOk result (λ ls. 0 < length ls) }
    ensures shows { IfOk result (λ ls. (xs : List Node) (n : ℕ) (sort : Sort) (s t : Term) → IsPath nodes.now xs from n hops.now → AreHypotheses nodes.now hops.now hyps.now →
        slice_get (terms_in store.now) from ≡ Some s → sort_of store.now.signature s ≡ Some sort → slice_get (terms_in store.now) n ≡ Some t →
        Shows store.now.signature (terms_in store.now) hyps.now ls s t) }
{
    let start = store.term(from)?;
    let mut lines = first_line(alloc, &start)?;
    for hyp in 0..hops.len() {
        let hop = hop_at(hops, hyp);
        let lit = lit_at(nodes, hop);
        push_hop(alloc, lit, hop.turned, hyp, &start, &mut lines)?;
    }
    Ok(lines)
}

/// The two names of which an edge speaks.
fn ends(edge: Edge) -> (usize, usize)
    ensures { (l r : ℕ) → edge ≡ Apart l r → (result.0 ≡ l) × (result.1 ≡ r) }
{
    match edge {
        Edge::Same { left, right } => (left, right),
        Edge::Apart { left, right } => (left, right),
        Edge::Other => (0, 0),
    }
}

/// The block of a way from one side of a denied equation to the other.
fn block_of(
    alloc: Global,
    store: &Store,
    nodes: &[Node],
    hops: &[Hop],
    number: usize,
    from: usize,
) -> Result<Explained, AllocError>
    requires fits { AllFit store.now nodes.now }
    requires number { number < length nodes.now }
    requires from { from < length store.now.nodes }
    requires within { AllByRecursion (λ h. h.node < length nodes.now) hops.now }
    ensures { IfOk result (λ e. (xs : List Node) (x : Node) (n : ℕ) → slice_get nodes.now number ≡ Some x → Contains xs x → x.edge ≡ Apart from n → IsPath nodes.now xs from n hops.now →
        IsContradictory store.now.signature e.block × (clause_ok store.now.signature e.block.deriv.hyps ≡ true) × IsBlockOf (map tagged xs) e.block.deriv.hyps e.tags
        × AllByRecursion (IsBuiltEquation store.now.signature (terms_in store.now)) e.block.deriv.lines) }
{
    let hyps = all_hypotheses(alloc, nodes, hops, number)?;
    let tags = all_tags(alloc, nodes, hops, number)?;
    let lines = lines_of(alloc, store, nodes, hops, hyps.as_slice(), from)?;
    let count = lines.len();
    let hyp = hops.len();
    let ending = Ending::Neq {
        line: count - 1,
        hyp,
    };
    let deriv = Deriv { hyps, lines };
    Ok(Explained {
        block: Block { deriv, ending },
        tags,
    })
}

/// Why the node of a number, one of those of a place, clashes with the others there.
pub fn explained(
    alloc: Global,
    store: &Store,
    nodes: &[Node],
    last: usize,
    number: usize,
) -> Result<Explained, AllocError>
    requires tree { IsTree nodes.now }
    requires within { last ≤ length nodes.now }
    requires fits { AllFit store.now nodes.now }
    requires own { IsConflict (record { nodes = nodes.now; last = last }) number }
    ensures contradictory { IfOk result (λ e. IsContradictory store.now.signature e.block) }
    ensures sorted { IfOk result (λ e. clause_ok store.now.signature e.block.deriv.hyps ≡ true) }
    ensures tags { IfOk result (λ e. IsBlockOf (map tagged (list_at nodes.now last)) e.block.deriv.hyps e.tags) }
    ensures built { IfOk result (λ e. AllByRecursion (IsBuiltEquation store.now.signature (terms_in store.now)) e.block.deriv.lines) }
{
    let (left, right) = ends(nodes[number].edge);
    let mut hops = List::new(alloc);
    push_path(nodes, last, left, right, &mut hops)?;
    block_of(alloc, store, nodes, hops.as_slice(), number, left)
}
