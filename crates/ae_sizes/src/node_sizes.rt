//! How large the formulas of typed trees are: each node is looked at once, behind what is told of those before it.

ghost use Rattle.std.specs.Prelude.{◌≡◌, ◌++◌, ◌∷◌, [], ℕ, List, Bool, true, false, Some, None, IfOk, map, min, length, take};
ghost use Rattle.ae_core.specs.declared.terms.Op.{Op};
ghost use Rattle.ae_core.specs.declared.terms.Sort as core;
ghost use Rattle.ae_elab.specs.Conditions.{shown};
ghost use Rattle.ae_elab.specs.Nodes.{Entry, a_tree, a_claim, tree_at, claim_at, trees_at, patterns_at, entry_of, entries_of, relation_of, join_of};
ghost use Rattle.ae_elab.specs.Sizes as size;
ghost use Rattle.ae_elab.specs.Trees as tree;
ghost use Rattle.ae_elab.specs.Trees.{Claim, claim_of};
ghost use Rattle.ae_elab.specs.Weights as rule;
ghost use Rattle.ae_sizes.specs.Inner.Counted.{counted, counted_weight, pile, counted_sorts, block_of, told};
ghost use Rattle.ae_sizes.specs.Inner.Weights as own;
ghost use Rattle.ae_types.specs.Bound.{bound};

use crate::measures::{
    Measure, block_at, formula, formula_at, size_at, standing_for, term, weight_at,
};
use crate::sorts::bound_sizes;
use crate::stands::{Stands, missing, pairs, weigh};
use crate::weights::{
    Size, Weight, beside, block_size, either, leaf, one_case, round_one, round_two, side_by_side,
    size_of, standing, together, within,
};
use ae_core::lists::List;
use ae_core::terms::{Head, Sort};
use ae_elab::nodes::{Connective, Node, Pattern, Relation};
use ae_syntax::exprs::Quantifier;
use ae_types::Bindings;
use std::alloc::{AllocError, Global};

// An application round terms, or what is applied to them in a formula: `sorts` are the sizes of its sorts together.
fn application(measures: &[Measure], last: bool, sorts: Size, terms: &[usize]) -> Weight
    ensures { (f : ℕ → core.Sort) (es : List Entry) (ss : List core.Sort) → measures.now ≡ map (told f) es → sorts ≡ counted (pile (rule.sort_sizes f ss)) → result ≡ counted_weight (rule.within 1 (rule.beside (rule.sort_sizes f ss) (own.all_standing own.once 0 (own.weight_list last f (trees_at es terms.now))))) }
{
    within(1, beside(sorts, weigh(measures, last, Stands::Once, terms)))
}

// How large an application is that stands for a formula: `true` and `false` are formulas.
fn head_size(head: Head, other: Size) -> Size
    ensures { (f : ℕ → core.Sort) (c : Claim) → other ≡ counted (own.claim_size f c) → result ≡ counted (own.claim_size f (tree.claim_of_head head c)) }
{
    match head {
        Head::True => leaf(),
        Head::False => leaf(),
        Head::Symbol(_) => other,
        Head::Build(_) => other,
        Head::Field { .. } => other,
        Head::Int(_) => other,
        Head::Real(_) => other,
        Head::Void => other,
    }
}

// An application.
fn applied(measures: &[Measure], sorts: Size, head: Head, terms: &[usize]) -> Measure
    ensures { (f : ℕ → core.Sort) (es : List Entry) (ss : List core.Sort) → measures.now ≡ map (told f) es → sorts ≡ counted (pile (rule.sort_sizes f ss)) → result ≡ told f (a_tree (tree.apply head ss (trees_at es terms.now))) }
{
    let all = application(measures, false, sorts, terms);
    let last = application(measures, true, sorts, terms);
    let formula = head_size(head, standing_for(all));
    Measure::Term { all, last, formula }
}

// An operation of arithmetic, which has no sorts of its own.
fn operation(measures: &[Measure], last: bool, terms: &[usize]) -> Weight
    ensures { (f : ℕ → core.Sort) (es : List Entry) → measures.now ≡ map (told f) es → result ≡ counted_weight (rule.within 1 (own.all_standing own.once 0 (own.weight_list last f (trees_at es terms.now)))) }
{
    within(1, weigh(measures, last, Stands::Once, terms))
}

// A record of so many fields, of which those that have no value are copied from one that weighs `base`.
fn record(
    measures: &[Measure],
    last: bool,
    sorts: Size,
    count: usize,
    base: Weight,
    places: &[usize],
    values: &[usize],
) -> Weight
    ensures { (f : ℕ → core.Sort) (es : List Entry) (ss : List size.Size) (b : rule.Weight) → measures.now ≡ map (told f) es → sorts ≡ counted (pile ss) → base ≡ counted_weight b → result ≡ counted_weight (own.record_weight ss count b places.now (own.weight_list last f (trees_at es values.now))) }
{
    let written = places.len().min(values.len());
    let absent = missing(count, &places[..written]).min(1_000_001);
    let copies = standing(absent as u64, 0, within(1, beside(sorts, base)));
    let fields = Stands::Fields { count, places };
    within(
        1,
        together(beside(sorts, copies), weigh(measures, last, fields, values)),
    )
}

// `if` between formulas.
fn either_way(condition: Size, positive: Size, negative: Size) -> Size
    ensures { (c s t : size.Size) → condition ≡ counted c → positive ≡ counted s → negative ≡ counted t → result ≡ counted (size.round (size.round (size.round (c ∷ []) ∷ s ∷ []) ∷ size.round (c ∷ t ∷ []) ∷ [])) }
{
    round_two(
        round_two(round_one(condition), positive),
        round_two(condition, negative),
    )
}

// `if` between terms, which is one between formulas where it stands for a formula.
fn choice(measures: &[Measure], condition: usize, positive: usize, negative: usize) -> Measure
    ensures { (f : ℕ → core.Sort) (es : List Entry) → measures.now ≡ map (told f) es → result ≡ told f (a_tree (tree.choice (claim_at es condition) (tree_at es positive) (tree_at es negative))) }
{
    let size = size_at(measures, condition);
    let first = weight_at(measures, false, positive);
    let second = weight_at(measures, false, negative);
    Measure::Term {
        all: either(size, first, second),
        last: weight_at(measures, true, negative),
        formula: either_way(
            size,
            formula_at(measures, positive),
            formula_at(measures, negative),
        ),
    }
}

// The size of two formulas' connective.
fn joined(connective: Connective, left: Size, right: Size) -> Size
    ensures { (f : ℕ → core.Sort) (a b : Claim) → left ≡ counted (own.claim_size f a) → right ≡ counted (own.claim_size f b) → result ≡ counted (own.claim_size f (join_of connective a b)) }
{
    match connective {
        Connective::Conjunction => round_two(left, right),
        Connective::Disjunction => round_two(left, right),
        Connective::Exclusion => round_two(left, right),
        Connective::Equivalence => round_two(left, right),
        Connective::Implication => round_two(round_one(left), right),
    }
}

// How many nodes a relation is.
fn relation_nodes(relation: Relation) -> u64
    ensures { result ≡ rule.relation_nodes (relation_of relation) }
{
    match relation {
        Relation::Equal => 1,
        Relation::Unequal => 2,
        Relation::Less => 1,
        Relation::AtMost => 1,
        Relation::Greater => 1,
        Relation::AtLeast => 1,
    }
}

// The size of a relation of two terms.
fn related(measures: &[Measure], relation: Relation, left: usize, right: usize) -> Size
    ensures { (f : ℕ → core.Sort) (es : List Entry) → measures.now ≡ map (told f) es → result ≡ counted (own.claim_size f (tree.relation (relation_of relation) (tree_at es left) (tree_at es right))) }
{
    let first = weight_at(measures, false, left);
    let second = weight_at(measures, false, right);
    size_of(within(relation_nodes(relation), together(first, second)))
}

// The nodes of a conjunction of so many inequalities, the terms left out.
fn inequalities(pairs: u64) -> Size
    ensures { (p : ℕ) → pairs ≡ min p 18446744073709551615 → result ≡ counted (pile (own.inequalities p ∷ [])) }
{
    let nodes = pairs
        .saturating_add(pairs)
        .saturating_add(pairs.saturating_sub(1));
    Size {
        nodes: nodes.min(1_000_001),
        levels: 0,
    }
}

// The inequalities of so many terms, in a conjunction round the terms; of one term or none it is true.
fn conjunction(count: usize, pairs: u64, weight: Weight) -> Weight
    requires { pairs ≡ min (rule.pairs count) 18446744073709551615 }
    ensures { (w : rule.Weight) → weight ≡ counted_weight w → result ≡ counted_weight (own.distinct_round count w) }
{
    if count < 2 {
        within(1, weight)
    } else {
        beside(inequalities(pairs), weight)
    }
}

// The size of `distinct`.
fn distinct(measures: &[Measure], terms: &[usize]) -> Size
    ensures { (f : ℕ → core.Sort) (es : List Entry) → measures.now ≡ map (told f) es → result ≡ counted (own.claim_size f (tree.distinct (trees_at es terms.now))) }
{
    let count = terms.len();
    let pairs = pairs(count);
    let weight = weigh(measures, false, Stands::Pairs { count, pairs }, terms);
    size_of(conjunction(count, pairs, weight))
}

// The sizes of the triggers' terms together, beside others.
fn pattern_sizes(measures: &[Measure], before: Size, triggers: &[Pattern]) -> Size
    ensures { (f : ℕ → core.Sort) (es : List Entry) (ss : List size.Size) → measures.now ≡ map (told f) es → before ≡ counted (pile ss) → result ≡ counted (pile (ss ++ own.pattern_sizes f (patterns_at es triggers.now))) }
{
    let mut parts = before;
    for trigger in triggers {
        let terms = weigh(measures, true, Stands::Once, trigger.terms.as_slice());
        parts = side_by_side(parts, size_of(terms));
    }
    parts
}

// Whether a block is one with the block that its body is.
#[tactic(auto, using(crate::proofs::MeasureLaws::merges_not))]
fn merges(quantifier: Quantifier, triggers: &[Pattern], body: Option<Quantifier>) -> bool
    ensures { (es : List Entry) (c : Claim) → body ≡ block_of c → result ≡ rule.merges quantifier (patterns_at es triggers.now) c }
{
    if 0 < triggers.len() {
        return false;
    }
    match body {
        Some(inner) => quantifier == inner,
        None => false,
    }
}

// A block of variables with its triggers round a formula.
fn quantified(
    measures: &[Measure],
    sorts: Size,
    quantifier: Quantifier,
    triggers: &[Pattern],
    body: usize,
) -> Measure
    ensures { (f : ℕ → core.Sort) (es : List Entry) (xs : List ℕ) (ss : List core.Sort) → measures.now ≡ map (told f) es → sorts ≡ counted (pile (rule.sort_sizes f ss)) → result ≡ told f (a_claim (tree.quantified quantifier xs ss (patterns_at es triggers.now) (claim_at es body))) }
{
    let around = pattern_sizes(measures, sorts, triggers);
    let merged = merges(quantifier, triggers, block_at(measures, body));
    Measure::Formula {
        size: block_size(merged, around, size_at(measures, body)),
        block: Some(quantifier),
    }
}

// How large a node is, behind those before it. `sorts` are the sizes of its sorts together.
fn measure_of(measures: &[Measure], sorts: Size, node: &Node) -> Measure
    ensures { (f : ℕ → core.Sort) (es : List Entry) → measures.now ≡ map (told f) es → sorts ≡ counted (pile (rule.sort_sizes f (counted_sorts node.now))) → result ≡ told f (entry_of es node.now) }
{
    match node {
        Node::Variable(_) => term(one_case(1), one_case(1)),
        Node::Numeral { .. } => term(one_case(1), one_case(1)),
        Node::Apply { head, args, .. } => applied(measures, sorts, *head, args.as_slice()),
        Node::Operation { args, .. } => {
            let args = args.as_slice();
            term(
                operation(measures, false, args),
                operation(measures, true, args),
            )
        }
        Node::Build {
            count,
            places,
            values,
            ..
        } => {
            let (places, values) = (places.as_slice(), values.as_slice());
            let all = record(measures, false, sorts, *count, one_case(1), places, values);
            let last = record(measures, true, sorts, *count, one_case(1), places, values);
            term(all, last)
        }
        Node::Update {
            count,
            base,
            places,
            values,
            ..
        } => {
            let (places, values) = (places.as_slice(), values.as_slice());
            let first = weight_at(measures, false, *base);
            let only = weight_at(measures, true, *base);
            let all = record(measures, false, sorts, *count, first, places, values);
            let last = record(measures, true, sorts, *count, only, places, values);
            term(all, last)
        }
        Node::Choice {
            condition,
            positive,
            negative,
        } => { choice(measures, *condition, *positive, *negative) }
        Node::Truth => formula(leaf()),
        Node::Falsity => formula(leaf()),
        Node::Relation {
            relation,
            left,
            right,
        } => { formula(related(measures, *relation, *left, *right)) }
        Node::Predicate { args, .. } => {
            formula(size_of(application(measures, false, sorts, args.as_slice())))
        }
        Node::Distinct(args) => formula(distinct(measures, args.as_slice())),
        Node::Holds(tree) => formula(formula_at(measures, *tree)),
        Node::Negation(part) => formula(round_one(size_at(measures, *part))),
        Node::Joined {
            connective,
            left,
            right,
        } => {
            formula(joined(
                *connective,
                size_at(measures, *left),
                size_at(measures, *right),
            ))
        }
        Node::Conditional {
            condition,
            positive,
            negative,
        } => formula(either_way(
            size_at(measures, *condition),
            size_at(measures, *positive),
            size_at(measures, *negative),
        )),
        Node::Quantified {
            quantifier,
            triggers,
            body,
            ..
        } => { quantified(measures, sorts, *quantifier, triggers.as_slice(), *body) }
    }
}

// The sorts of a node that count.
fn sorts_of(node: &Node) -> &[Sort]
    ensures { result.now ≡ counted_sorts node.now }
{
    match node {
        Node::Apply { sorts, .. } => sorts.as_slice(),
        Node::Build { sorts, .. } => sorts.as_slice(),
        Node::Update { sorts, .. } => sorts.as_slice(),
        Node::Predicate { sorts, .. } => sorts.as_slice(),
        Node::Quantified { sorts, .. } => sorts.as_slice(),
        _ => &[],
    }
}

/// How large each of these trees is, with the sorts put for their unknowns that the bindings have for them.
pub fn measures(
    alloc: Global,
    bindings: &Bindings,
    nodes: &[Node],
) -> Result<List<Measure>, AllocError>
    ensures { IfOk result (λ ms. ms ≡ map (told (shown (bound bindings.now))) (entries_of nodes.now)) }
{
    let mut measures = List::new(alloc);
    for node in nodes {
        let sorts = bound_sizes(bindings, sorts_of(node))?;
        let measure = measure_of(measures.as_slice(), sorts, node);
        measures.push(measure)?;
    }
    Ok(measures)
}
