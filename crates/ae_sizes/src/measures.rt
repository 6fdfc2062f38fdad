//! What is told of the sizes of typed trees, and of the trees at places among them.

ghost use Rattle.std.specs.Prelude.{◌≡◌, ◌∷◌, [], ℕ, List, Bool, true, false, Some, None, map};
ghost use Rattle.ae_core.specs.declared.terms.Sort as core;
ghost use Rattle.ae_elab.specs.Nodes.{Entry, a_tree, a_claim, tree_in, claim_in, tree_at, claim_at};
ghost use Rattle.ae_elab.specs.Sizes as size;
ghost use Rattle.ae_elab.specs.Trees.{Tree, Claim, claim_of, holds};
ghost use Rattle.ae_elab.specs.Weights as rule;
ghost use Rattle.ae_sizes.specs.Inner.Counted.{counted, counted_weight, block_of, told};
ghost use Rattle.ae_sizes.specs.Inner.Weights as own;

use crate::weights::{Size, Weight, beside, leaf, one_case, size_of, within};
use ae_base::lists::at;
use ae_syntax::exprs::Quantifier;

/// How large a typed tree is.
#[derive(Clone, Copy)]
pub enum Measure {
    /// A term: what its cases weigh, its last case alone, and how large it is where it stands for a formula.
    Term {
        all: Weight,
        last: Weight,
        formula: Size,
    },
    /// A formula, and the quantifier of the block that it is, if it is one.
    Formula {
        size: Size,
        block: Option<Quantifier>,
    },
}

/// A term that stands for a formula of this size, and nothing else.
pub fn standing_for(weight: Weight) -> Size
    ensures { (w : rule.Weight) → weight ≡ counted_weight w → result ≡ counted (rule.size_of (rule.within 1 (rule.beside (size.round [] ∷ []) w))) }
{
    size_of(within(1, beside(leaf(), weight)))
}

// The weight of a term.
fn weight_in(measure: Measure, last: bool) -> Weight
    ensures { (f : ℕ → core.Sort) (e : Entry) → measure ≡ told f e → result ≡ counted_weight (own.weight last f (tree_in (Some e))) }
{
    match measure {
        Measure::Term {
            all,
            last: only,
            ..
        } => if last { only } else { all },
        Measure::Formula { .. } => one_case(1),
    }
}

// The size of the formula that a term is.
fn formula_in(measure: Measure) -> Size
    ensures { (f : ℕ → core.Sort) (e : Entry) → measure ≡ told f e → result ≡ counted (own.claim_size f (claim_of (tree_in (Some e)))) }
{
    match measure {
        Measure::Term { formula, .. } => formula,
        Measure::Formula { .. } => standing_for(one_case(1)),
    }
}

// The size of a formula.
fn size_in(measure: Measure) -> Size
    ensures { (f : ℕ → core.Sort) (e : Entry) → measure ≡ told f e → result ≡ counted (own.claim_size f (claim_in (Some e))) }
{
    match measure {
        Measure::Term { .. } => leaf(),
        Measure::Formula { size, .. } => size,
    }
}

// The quantifier of the block that a formula is.
fn block_in(measure: Measure) -> Option<Quantifier>
    ensures { (f : ℕ → core.Sort) (e : Entry) → measure ≡ told f e → result ≡ block_of (claim_in (Some e)) }
{
    match measure {
        Measure::Term { .. } => None,
        Measure::Formula { block, .. } => block,
    }
}

/// The weight of the term at a place.
pub fn weight_at(measures: &[Measure], last: bool, place: usize) -> Weight
    ensures { (f : ℕ → core.Sort) (es : List Entry) → measures.now ≡ map (told f) es → result ≡ counted_weight (own.weight last f (tree_at es place)) }
{
    match at(measures, place) {
        Some(measure) => weight_in(*measure, last),
        None => one_case(1),
    }
}

/// The size of the formula that the term at a place is.
pub fn formula_at(measures: &[Measure], place: usize) -> Size
    ensures { (f : ℕ → core.Sort) (es : List Entry) → measures.now ≡ map (told f) es → result ≡ counted (own.claim_size f (claim_of (tree_at es place))) }
{
    match at(measures, place) {
        Some(measure) => formula_in(*measure),
        None => standing_for(one_case(1)),
    }
}

/// The size of the formula at a place.
pub fn size_at(measures: &[Measure], place: usize) -> Size
    ensures { (f : ℕ → core.Sort) (es : List Entry) → measures.now ≡ map (told f) es → result ≡ counted (own.claim_size f (claim_at es place)) }
{
    match at(measures, place) {
        Some(measure) => size_in(*measure),
        None => leaf(),
    }
}

/// The quantifier of the block at a place.
pub fn block_at(measures: &[Measure], place: usize) -> Option<Quantifier>
    ensures { (f : ℕ → core.Sort) (es : List Entry) → measures.now ≡ map (told f) es → result ≡ block_of (claim_at es place) }
{
    match at(measures, place) {
        Some(measure) => block_in(*measure),
        None => None,
    }
}

/// A term that stands for a formula as it is.
pub fn term(all: Weight, last: Weight) -> Measure
    ensures { (f : ℕ → core.Sort) (t : Tree) → all ≡ counted_weight (own.weight false f t) → last ≡ counted_weight (own.weight true f t) → claim_of t ≡ holds t → result ≡ told f (a_tree t) }
{
    Measure::Term {
        all,
        last,
        formula: standing_for(all),
    }
}

/// A formula that is no block.
pub fn formula(size: Size) -> Measure
    ensures { (f : ℕ → core.Sort) (c : Claim) → size ≡ counted (own.claim_size f c) → block_of c ≡ None → result ≡ told f (a_claim c) }
{
    Measure::Formula { size, block: None }
}
