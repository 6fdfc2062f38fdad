//! The sweep over all that a state holds of a store.
ghost use Rattle.std.specs.Prelude.{◌≡◌, ◌<◌, length, IfOk, IfNone, IfSome};
ghost use Rattle.std.specs.List.{AllByRecursion};
ghost use Rattle.ae_store.specs.Shapes.{shapes};
ghost use Rattle.ae_store.specs.Terms.{terms};
ghost use Rattle.ae_settled.specs.Swept.{IsSwept};
ghost use Rattle.ae_sweeps.specs.Given.{rep_in, entries_of, AreConstants};
ghost use Rattle.ae_sweeps.specs.Gaps.{IsGap};

use crate::congruences::first_unequal;
use crate::gaps::Gap;
use crate::joins::first_unflat;
use crate::pairs::first_pair;
use crate::sides::first_side;
use ae_core::problems::Signature;
use ae_monoid::Rules;
use ae_num::forms::Name;
use ae_store::store::Store;
use std::alloc::{AllocError, Global};

/// Something that is left to do: about the sides of a rule, else about congruent names, else about a name of an AC symbol, else about two
/// rules. `None` exactly where nothing is.
///
/// `constants` says of each name whether its term's linear form is a number, `reps` gives each name's representative.
pub fn first_gap(
    alloc: Global,
    signature: &Signature,
    store: &Store,
    constants: &[bool],
    reps: &[Name],
    rules: &Rules,
) -> Result<Option<Gap>, AllocError>
    requires same { signature.now ≡ store.now.signature }
    requires constants { AreConstants (terms (shapes store.now.nodes)) constants.now }
    requires reps { AllByRecursion (λ r. r < length store.now.nodes) reps.now }
    ensures swept { IfOk result (λ gap. IfNone gap (IsSwept store.now.signature store.now.nodes (rep_in reps.now) (entries_of rules.now))) }
    ensures gap { IfOk result (λ gap. IfSome gap (λ g. IsGap store.now.signature store.now.nodes (rep_in reps.now) (entries_of rules.now) g)) }
{
    let _len = store.len();
    let _none = rules.rule(rules.len());
    if let Some(gap) = first_side(rules, reps)? {
        return Ok(Some(gap));
    }
    if let Some(gap) = first_unequal(alloc, signature, store, reps)? {
        return Ok(Some(gap));
    }
    if let Some(gap) = first_unflat(alloc, signature, store, constants, reps, rules)? {
        return Ok(Some(gap));
    }
    first_pair(rules)
}
