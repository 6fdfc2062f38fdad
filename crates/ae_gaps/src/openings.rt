//! What a sweep finds where rules are composed.
ghost use Rattle.std.specs.Prelude.{ℕ, List, Option, IfOk, IfNone, IfSome};
ghost use Rattle.ae_core.specs.declared.problems.Signature.{Signature};
ghost use Rattle.ae_gaps.specs.Inner.Openings.{IsOfSides, IsOpening};
ghost use Rattle.ae_journal.specs.declared.systems.RuleEntry.{RuleEntry};
ghost use Rattle.ae_monoid.specs.Rules.{rule_at};
ghost use Rattle.ae_settled.specs.Swept.{IsSwept};
ghost use Rattle.ae_state.specs.Names.{rules_now};
ghost use Rattle.ae_store.specs.declared.nodes.Node.{Node};
ghost use Rattle.ae_sweeps.specs.Gaps.{IsGap};
ghost use Rattle.ae_sweeps.specs.Given.{rep_in, AreConstants};
ghost use Rattle.ae_theory.specs.Names.{terms_in};
ghost use Rattle.ae_turns.specs.Cleared.{AreComposed};
ghost use Rattle.ae_turns.specs.Representing.{IsTaken, AreRepresentatives};

use ae_num::forms::Name;
use ae_state::Holding;
use ae_store::store::Store;
use ae_sweeps::{Gap, first_gap};
use ae_turns::laws::least_names_represent;
use std::alloc::{AllocError, Global};

/// What is left to do where the sides of all rules are over representatives and reduced.
#[derive(Clone, Copy)]
pub(crate) enum Opening {
    /// The two names apply one head to arguments of the same representatives, and have different representatives.
    Unequal { first: Name, second: Name },
    /// The name applies an AC symbol, and its arguments don't come down to its representative.
    Unflat(Name),
    /// The two results of the two rules' overlap come down to different multisets.
    Pair { first: usize, second: usize },
}

/// What a gap leaves to do, if it is none of the sides of rules.
fn opening_of(gap: &Gap) -> Option<Opening>
    ensures none { IfNone result (IsOfSides gap.now) }
    ensures some { (sig : Signature) (nodes : List Node) (rep : ℕ → ℕ) (rules : ℕ → Option RuleEntry) → IsGap sig nodes rep rules gap.now
        → IfSome result (λ o. IsOpening sig nodes rep rules o) }
{
    match gap {
        Gap::Stale(_) => None,
        Gap::Uncomposed(_) => None,
        Gap::Collapsible { .. } => None,
        Gap::Pair { first, second, .. } => Some(Opening::Pair {
            first: *first,
            second: *second,
        }),
        Gap::Unflat { name, .. } => Some(Opening::Unflat(*name)),
        Gap::Unequal { first, second } => Some(Opening::Unequal {
            first: *first,
            second: *second,
        }),
    }
}

/// What a sweep finds. Rules that are composed leave nothing to do about their sides.
pub(crate) fn first_opening(
    alloc: Global,
    held: &Holding,
    store: &Store,
    constants: &[bool],
    reps: &[Name],
) -> Result<Option<Opening>, AllocError>
    requires taken { IsTaken held.now store.now }
    requires reps { AreRepresentatives held.now reps.now }
    requires constants { AreConstants (terms_in store.now) constants.now }
    requires composed { AreComposed reps.now (λ n. rule_at held.now.equations.rules n) }
    ensures swept { IfOk result (λ o. IfNone o (IsSwept store.now.signature store.now.nodes (rep_in reps.now) (rules_now held.now))) }
    ensures open { IfOk result (λ o. IfSome o (λ g. IsOpening store.now.signature store.now.nodes (rep_in reps.now) (rules_now held.now) g)) }
{
    least_names_represent();
    let rules = held.equations.rules();
    let found = first_gap(alloc, &held.signature, store, constants, reps, rules)?;
    match found {
        Some(gap) => Ok(opening_of(&gap)),
        None => Ok(None),
    }
}
