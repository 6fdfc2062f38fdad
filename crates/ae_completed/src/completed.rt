//! Completed systems, told by running.
ghost use Rattle.std.specs.Prelude.{◌≡◌, ◌↔◌, true, IfOk};
ghost use Rattle.ae_journal.specs.Systems.{IsCompleted};
ghost use Rattle.ae_decide.specs.Clauses.{HasTerms, HasLeaves};
ghost use Rattle.ae_completed.specs.Groups.{HasNames, HasValues, HasRules};

use crate::joins::names_join;
use ae_computing::computing::has_computed;
use ae_core::problems::Signature;
use ae_decide::congruence::is_congruent;
use ae_decide::leaves::has_leaves;
use ae_decide::names::has_terms;
use ae_decide::overlaps::overlaps_join;
use ae_decide::records::has_records;
use ae_decide::reduction::are_reduced;
use ae_decide::rules::rules_fit;
use ae_journal::systems::System;
use std::alloc::{AllocError, Global};

/// Whether the names of a system and the leaves of its values are as a completed system has them.
fn has_names(alloc: Global, signature: &Signature, system: &System) -> Result<bool, AllocError>
    ensures { IfOk result (λ b. (b ≡ true) ↔ HasNames signature.now system.now) }
{
    let closed = has_terms(alloc, signature, system)?;
    if !closed {
        return Ok(false);
    }
    has_leaves(alloc, signature, system)
}

/// Whether the values are: those that are computed, those of records, and those of applications.
fn has_values(alloc: Global, signature: &Signature, system: &System) -> Result<bool, AllocError>
    requires terms { HasTerms signature.now system.now }
    requires leaves { HasLeaves signature.now system.now }
    ensures { IfOk result (λ b. (b ≡ true) ↔ HasValues signature.now system.now) }
{
    let computed = has_computed(alloc, signature, system)?;
    if !computed {
        return Ok(false);
    }
    let written = has_records(alloc, signature, system)?;
    if !written {
        return Ok(false);
    }
    is_congruent(alloc, signature, system)
}

/// Whether the rules are.
fn has_rules(alloc: Global, signature: &Signature, system: &System) -> Result<bool, AllocError>
    requires terms { HasTerms signature.now system.now }
    requires leaves { HasLeaves signature.now system.now }
    ensures { IfOk result (λ b. (b ≡ true) ↔ HasRules signature.now system.now) }
{
    let fit = rules_fit(alloc, signature, system)?;
    if !fit {
        return Ok(false);
    }
    let reduced = are_reduced(alloc, system)?;
    if !reduced {
        return Ok(false);
    }
    let deduced = overlaps_join(alloc, system)?;
    if !deduced {
        return Ok(false);
    }
    names_join(alloc, signature, system)
}

/// Whether a system is completed: whether each of the nine clauses holds of it. Its time grows at most with the third power of the size of
/// the system, but for the reductions, each of which goes on as long as a rule fits. An error comes for want of memory alone.
pub fn is_completed(
    alloc: Global,
    signature: &Signature,
    system: &System,
) -> Result<bool, AllocError>
    ensures { IfOk result (λ b. (b ≡ true) ↔ IsCompleted signature.now system.now) }
{
    let named = has_names(alloc, signature, system)?;
    if !named {
        return Ok(false);
    }
    let valued = has_values(alloc, signature, system)?;
    if !valued {
        return Ok(false);
    }
    has_rules(alloc, signature, system)
}
