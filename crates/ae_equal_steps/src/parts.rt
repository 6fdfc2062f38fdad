//! What a pattern is of, and what it has.
ghost use Rattle.std.specs.Prelude.{◌≡◌};
ghost use Rattle.ae_equal_steps.specs.Inner.Parts as spec;

use ae_num::forms::Name;
use ae_value_table::Pattern;

/// The name that a pattern is of.
#[tactic(auto, using(crate::proofs::PatternLaws::part_rules))]
pub(crate) fn name_of(pattern: &Pattern) -> Name
    ensures { result ≡ spec.name_of pattern.now }
{
    match pattern {
        Pattern::Number(name) => *name,
        Pattern::Leaf(name) => *name,
        Pattern::Fields { name, .. } => *name,
    }
}

/// The patterns of the fields, none where it is no record's.
#[tactic(auto, using(crate::proofs::PatternLaws::part_rules))]
pub(crate) fn parts_of(pattern: &Pattern) -> &[Pattern]
    ensures { result.now ≡ spec.parts_of pattern.now }
{
    match pattern {
        Pattern::Number(_) => &[],
        Pattern::Leaf(_) => &[],
        Pattern::Fields { fields, .. } => fields.as_slice(),
    }
}
