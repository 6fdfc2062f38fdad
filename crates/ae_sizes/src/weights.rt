//! How large formulas are: numbers that are counted up to one more than the nodes that a formula may have.

ghost use Rattle.std.specs.Prelude.{◌≡◌, ◌+◌, ◌*◌, ◌++◌, ℕ, List, max, [], ◌∷◌};
ghost use Rattle.ae_elab.specs.Sizes as size;
ghost use Rattle.ae_elab.specs.Weights as rule;
ghost use Rattle.ae_sizes.specs.Inner.Counted.{capped, counted, counted_weight, pile};
ghost use Rattle.ae_sizes.specs.Inner.Weights as own;

/// How large a formula, a term or a sort is.
#[derive(Clone, Copy)]
pub struct Size {
    /// How many formulas, terms and sorts stand in it, itself included.
    pub nodes: u64,
    /// How many of them stand one inside another.
    pub levels: u64,
}

/// How large the cases of a term are, or those of a list of terms.
#[derive(Clone, Copy)]
pub struct Weight {
    /// How many cases there are.
    pub cases: u64,
    /// What the nodes of their values add up to.
    pub nodes: u64,
    /// The nodes that the conditions add.
    pub added: u64,
    /// The levels above the deepest case.
    pub above: u64,
    /// The greatest level of a value.
    pub reach: u64,
    /// The greatest level of a condition.
    pub conditions: u64,
}

// A sum, up to the ceiling.
fn plus(left: u64, right: u64) -> u64
    ensures { (a b : ℕ) → left ≡ capped a → right ≡ capped b → result ≡ capped (a + b) }
{
    left.saturating_add(right).min(1_000_001)
}

// A product, up to the ceiling.
fn by(left: u64, right: u64) -> u64
    ensures { (a b : ℕ) → left ≡ capped a → right ≡ capped b → result ≡ capped (a * b) }
{
    left.saturating_mul(right).min(1_000_001)
}

// The greater of two numbers, up to the ceiling.
fn greater(left: u64, right: u64) -> u64
    ensures { (a b : ℕ) → left ≡ capped a → right ≡ capped b → result ≡ capped (max a b) }
{
    left.max(right)
}

/// One case, of so many nodes.
pub fn one_case(nodes: u64) -> Weight
    ensures { result ≡ counted_weight (rule.one_case nodes) }
{
    let nodes = nodes.min(1_000_001);
    Weight {
        cases: 1,
        nodes,
        added: 0,
        above: 0,
        reach: nodes,
        conditions: 0,
    }
}

/// Under each case of the first, those of the second.
pub fn together(left: Weight, right: Weight) -> Weight
    ensures { (v w : rule.Weight) → left ≡ counted_weight v → right ≡ counted_weight w → result ≡ counted_weight (rule.together v w) }
{
    Weight {
        cases: by(left.cases, right.cases),
        nodes: plus(by(left.nodes, right.cases), by(left.cases, right.nodes)),
        added: plus(left.added, by(left.cases, right.added)),
        above: plus(left.above, right.above),
        reach: greater(plus(left.reach, right.above), plus(left.above, right.reach)),
        conditions: greater(left.conditions, plus(left.above, right.conditions)),
    }
}

/// An `if` between terms.
pub fn either(condition: Size, positive: Weight, negative: Weight) -> Weight
    ensures { (c : size.Size) (v w : rule.Weight) → condition ≡ counted c → positive ≡ counted_weight v → negative ≡ counted_weight w → result ≡ counted_weight (rule.either_weight c v w) }
{
    let twice = plus(condition.nodes, condition.nodes);
    Weight {
        cases: plus(positive.cases, negative.cases),
        nodes: plus(positive.nodes, negative.nodes),
        added: plus(plus(4, twice), plus(positive.added, negative.added)),
        above: plus(2, greater(positive.above, negative.above)),
        reach: plus(2, greater(positive.reach, negative.reach)),
        conditions: greater(
            plus(3, condition.levels),
            plus(2, greater(positive.conditions, negative.conditions)),
        ),
    }
}

/// So many nodes, one inside another, round the values of each case.
pub fn within(nodes: u64, weight: Weight) -> Weight
    ensures { (n : ℕ) (w : rule.Weight) → nodes ≡ capped n → weight ≡ counted_weight w → result ≡ counted_weight (rule.within n w) }
{
    Weight {
        nodes: plus(weight.nodes, by(weight.cases, nodes)),
        reach: plus(weight.reach, nodes),
        ..weight
    }
}

/// The values of each case, so many times and so many levels deeper.
pub fn standing(times: u64, levels: u64, weight: Weight) -> Weight
    ensures { (k d : ℕ) (w : rule.Weight) → times ≡ capped k → levels ≡ capped d → weight ≡ counted_weight w → result ≡ counted_weight (own.standing k d w) }
{
    if times == 0 {
        Weight {
            nodes: 0,
            reach: weight.above,
            ..weight
        }
    } else {
        Weight {
            nodes: by(weight.nodes, times),
            reach: plus(weight.reach, levels),
            ..weight
        }
    }
}

/// Other nodes beside the values of each case.
pub fn beside(part: Size, weight: Weight) -> Weight
    ensures { (ss : List size.Size) (w : rule.Weight) → part ≡ counted (pile ss) → weight ≡ counted_weight w → result ≡ counted_weight (rule.beside ss w) }
{
    Weight {
        nodes: plus(weight.nodes, by(weight.cases, part.nodes)),
        reach: greater(weight.reach, plus(weight.above, part.levels)),
        ..weight
    }
}

/// How large an atom is whose cases have this weight.
pub fn size_of(weight: Weight) -> Size
    ensures { (w : rule.Weight) → weight ≡ counted_weight w → result ≡ counted (rule.size_of w) }
{
    Size {
        nodes: plus(weight.nodes, weight.added),
        levels: greater(weight.reach, weight.conditions),
    }
}

/// No sizes.
pub fn nothing() -> Size
    ensures { result ≡ counted (pile []) }
{
    Size {
        nodes: 0,
        levels: 0,
    }
}

/// Sizes beside each other: their nodes together, and the levels of the deeper one.
pub fn side_by_side(left: Size, right: Size) -> Size
    ensures { (ss : List size.Size) (s : size.Size) → left ≡ counted (pile ss) → right ≡ counted s → result ≡ counted (pile (ss ++ s ∷ [])) }
{
    Size {
        nodes: plus(left.nodes, right.nodes),
        levels: greater(left.levels, right.levels),
    }
}

/// A node round parts beside each other.
pub fn round(parts: Size) -> Size
    ensures { (ss : List size.Size) → parts ≡ counted (pile ss) → result ≡ counted (size.round ss) }
{
    Size {
        nodes: plus(1, parts.nodes),
        levels: plus(1, parts.levels),
    }
}

/// A node round another one.
pub fn round_one(part: Size) -> Size
    ensures { (s : size.Size) → part ≡ counted s → result ≡ counted (size.round (s ∷ [])) }
{
    round(side_by_side(nothing(), part))
}

/// A node round two others.
pub fn round_two(left: Size, right: Size) -> Size
    ensures { (s t : size.Size) → left ≡ counted s → right ≡ counted t → result ≡ counted (size.round (s ∷ t ∷ [])) }
{
    round(side_by_side(side_by_side(nothing(), left), right))
}

/// A node without parts.
pub fn leaf() -> Size
    ensures { result ≡ counted (size.round []) }
{
    round(nothing())
}

/// A block: `merged` where it is one with the block that its body is. `around` is what stands beside the body.
pub fn block_size(merged: bool, around: Size, body: Size) -> Size
    ensures { (ss : List size.Size) (s : size.Size) → around ≡ counted (pile ss) → body ≡ counted s → result ≡ counted (rule.block_size merged ss s) }
{
    if merged {
        let nodes = plus(around.nodes, body.nodes);
        let first = plus(1, around.levels);
        let levels = greater(first, body.levels);
        Size { nodes, levels }
    } else {
        round(side_by_side(around, body))
    }
}
