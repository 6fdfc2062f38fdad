//! The values of applications: whether arguments of equal values give equal values.
ghost use Rattle.std.specs.Prelude.{◌≡◌, ◌↔◌, true, IfOk};
ghost use Rattle.std.specs.List.{list_all};
ghost use Rattle.ae_decide.specs.Clauses.{HasTerms, HasLeaves, IsCongruent};
ghost use Rattle.ae_decide.specs.Congruence as spec;

use crate::names::is_head;
use crate::values::{all_alike, are_alike};
use ae_core::problems::Signature;
use ae_core::sorts::{are_sorts, sort_of};
use ae_core::terms::Term;
use ae_journal::systems::System;
use std::alloc::{AllocError, Global};

/// Whether two terms apply one head to arguments of the same values.
fn apply_alike(system: &System, left: &Term, right: &Term) -> bool
    ensures { result ≡ spec.apply_alike system.now left.now right.now }
{
    match (left, right) {
        (
            Term::Apply {
                head: h,
                sorts: ss,
                args: us,
            },
            Term::Apply {
                head: g,
                sorts: os,
                args: ws,
            },
        ) => {
            is_head(*h, *g)
                && are_sorts(ss.as_slice(), os.as_slice())
                && all_alike(system, us.as_slice(), ws.as_slice())
        }
        _ => false,
    }
}

/// Whether two names that apply one head to arguments of the same values have the same value, if they have a sort.
fn agree(
    alloc: Global,
    signature: &Signature,
    system: &System,
    left: &Term,
    right: &Term,
) -> Result<bool, AllocError>
    ensures { IfOk result (λ b. b ≡ spec.agree signature.now system.now left.now right.now) }
{
    if !apply_alike(system, left, right) {
        return Ok(true);
    }
    match sort_of(alloc, signature, left)? {
        None => Ok(true),
        Some(_sort) => Ok(are_alike(system, left, right)),
    }
}

/// Whether a name agrees with each.
fn agrees_with_each(
    alloc: Global,
    signature: &Signature,
    system: &System,
    name: &Term,
) -> Result<bool, AllocError>
    ensures { IfOk result (λ b. b ≡ list_all (spec.agree signature.now system.now name.now) system.now.names) }
{
    let names = system.names.as_slice();
    for other in names {
        if !agree(alloc, signature, system, name, other)? {
            return Ok(false);
        }
    }
    Ok(true)
}

/// Whether each two names agree.
fn all_agree(alloc: Global, signature: &Signature, system: &System) -> Result<bool, AllocError>
    ensures { IfOk result (λ b. b ≡ spec.all_agree signature.now system.now) }
{
    let names = system.names.as_slice();
    for name in names {
        if !agrees_with_each(alloc, signature, system, name)? {
            return Ok(false);
        }
    }
    Ok(true)
}

/// Whether arguments of equal values give equal values: the fifth clause of a completed system. Its time grows with the third power of
/// the number of names.
pub fn is_congruent(
    alloc: Global,
    signature: &Signature,
    system: &System,
) -> Result<bool, AllocError>
    requires terms { HasTerms signature.now system.now }
    requires leaves { HasLeaves signature.now system.now }
    ensures { IfOk result (λ b. (b ≡ true) ↔ IsCongruent signature.now system.now) }
{
    all_agree(alloc, signature, system)
}
