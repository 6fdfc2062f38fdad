//! The names of AC symbols: whether the representatives of the arguments reduce to that of the name.
ghost use Rattle.std.specs.Prelude.{◌≡◌, ◌↔◌, true, [], ◌∷◌, length, Some, IfOk};
ghost use Rattle.std.specs.List.{list_all};
ghost use Rattle.ae_rules.specs.Linear as linear;
ghost use Rattle.ae_decide.specs.Clauses.{HasTerms, HasLeaves, RulesFit, AllOverlapsJoin, AllNamesJoin};
ghost use Rattle.ae_decide.specs.Overlaps.{AllFall};
ghost use Rattle.ae_completed.specs.Joins as spec;

use ae_computing::forms::number_of;
use ae_core::copies::copy_sorts;
use ae_core::problems::{AcSymbol, Signature};
use ae_core::sorts::sort_of;
use ae_core::terms::{Head, Op, Sort, Term};
use ae_decide::overlaps::{normal_form, same_names};
use ae_decide::rules::{has, is_ac};
use ae_decide::values::value_of;
use ae_journal::systems::System;
use ae_num::forms::{Name, Value};
use std::alloc::{AllocError, Global};

/// The least name of this sort that has this value.
#[tactic(auto, using(crate::proofs::JoinTests::least_step))]
fn least_with(
    alloc: Global,
    signature: &Signature,
    system: &System,
    sort: &Sort,
    value: &Value,
) -> Result<Option<Name>, AllocError>
    ensures { IfOk result (λ o. o ≡ spec.least_from signature.now system.now sort.now (Some value.now) 0 (length system.now.names)) }
{
    for name in 0..system.names.len() {
        if has(alloc, signature, system, sort, value, name)? {
            return Ok(Some(name));
        }
    }
    Ok(None)
}

/// The name that represents the value of a term, if the term is a name and has a sort.
fn representative_of(
    alloc: Global,
    signature: &Signature,
    system: &System,
    term: &Term,
) -> Result<Option<Name>, AllocError>
    ensures { IfOk result (λ o. o ≡ spec.representative_of signature.now system.now term.now) }
{
    let Some(value) = value_of(system, term) else {
        return Ok(None);
    };
    match sort_of(alloc, signature, term)? {
        None => Ok(None),
        Some(sort) => least_with(alloc, signature, system, &sort, value),
    }
}

/// Whether a term is a number: its linear form has no opaque part.
#[tactic(auto, using(crate::proofs::JoinTests::is_known, crate::proofs::JoinTests::is_unknown))]
fn is_number(alloc: Global, term: &Term) -> Result<bool, AllocError>
    ensures { IfOk result (λ b. b ≡ linear.is_number (linear.form term.now)) }
{
    match number_of(alloc, term)? {
        Some(_) => Ok(true),
        None => Ok(false),
    }
}

/// Whether neither factor of a product is a number.
fn is_product(alloc: Global, left: &Term, right: &Term) -> Result<bool, AllocError>
    ensures { IfOk result (λ b. b ≡ spec.is_product left.now right.now) }
{
    let first = is_number(alloc, left)?;
    if first {
        return Ok(false);
    }
    let second = is_number(alloc, right)?;
    Ok(!second)
}

/// Whether two terms under a head are joined: by an AC symbol, or as the factors of a product.
fn is_join(
    alloc: Global,
    signature: &Signature,
    head: Head,
    left: &Term,
    right: &Term,
) -> Result<bool, AllocError>
    ensures { IfOk result (λ b. b ≡ spec.is_join signature.now head left.now right.now) }
{
    match head {
        Head::Symbol(_) => Ok(is_ac(signature, head)),
        Head::Int(Op::Mul) => is_product(alloc, left, right),
        Head::Real(Op::Mul) => is_product(alloc, left, right),
        _ => Ok(false),
    }
}

/// Whether two names have a third as their normal form.
fn reduces_to(
    alloc: Global,
    system: &System,
    symbol: &AcSymbol,
    first: Name,
    second: Name,
    whole: Name,
) -> Result<bool, AllocError>
    requires falls { AllFall system.now.rules }
    ensures { IfOk result (λ b. b ≡ spec.reduces_to system.now symbol.now (Some first) (Some second) (Some whole)) }
{
    let normal = normal_form(alloc, system.rules.as_slice(), symbol, &[first, second])?;
    Ok(same_names(normal.as_slice(), &[whole]))
}

/// Whether the representatives of two terms reduce to that of a symbol applied to them, if the symbol joins them and they have any.
fn application_joins(
    alloc: Global,
    signature: &Signature,
    system: &System,
    symbol: &AcSymbol,
    left: &Term,
    right: &Term,
    whole: &Term,
) -> Result<bool, AllocError>
    requires falls { AllFall system.now.rules }
    ensures { IfOk result (λ b. b ≡ spec.application_joins signature.now system.now symbol.now left.now right.now whole.now) }
{
    let Some(first) = representative_of(alloc, signature, system, left)? else {
        return Ok(true);
    };
    let Some(second) = representative_of(alloc, signature, system, right)? else {
        return Ok(true);
    };
    let Some(third) = representative_of(alloc, signature, system, whole)? else {
        return Ok(true);
    };
    let joined = is_join(alloc, signature, symbol.head, left, right)?;
    if !joined {
        return Ok(true);
    }
    reduces_to(alloc, system, symbol, first, second, third)
}

/// Whether the representatives of the arguments of a name reduce to that of the name, if the name's head joins them.
fn name_joins(
    alloc: Global,
    signature: &Signature,
    system: &System,
    name: &Term,
) -> Result<bool, AllocError>
    requires falls { AllFall system.now.rules }
    ensures { IfOk result (λ b. b ≡ spec.name_joins signature.now system.now name.now) }
{
    match name {
        Term::Apply { head, sorts, args } => match args.as_slice() {
            [left, right] => {
                let symbol = AcSymbol {
                    head: *head,
                    sorts: copy_sorts(alloc, sorts.as_slice())?,
                };
                application_joins(alloc, signature, system, &symbol, left, right, name)
            }
            _ => Ok(true),
        },
        _ => Ok(true),
    }
}

/// Whether those of each name do.
fn all_names_join(alloc: Global, signature: &Signature, system: &System) -> Result<bool, AllocError>
    requires falls { AllFall system.now.rules }
    ensures { IfOk result (λ b. b ≡ spec.all_names_join signature.now system.now) }
{
    let names = system.names.as_slice();
    for name in names {
        let joined = name_joins(alloc, signature, system, name)?;
        if !joined {
            return Ok(false);
        }
    }
    Ok(true)
}

/// Whether the representatives of the arguments of each name of an AC symbol reduce to that of the name: the ninth clause of a completed
/// system.
pub fn names_join(alloc: Global, signature: &Signature, system: &System) -> Result<bool, AllocError>
    requires terms { HasTerms signature.now system.now }
    requires leaves { HasLeaves signature.now system.now }
    requires rules { RulesFit signature.now system.now }
    requires overlaps { AllOverlapsJoin signature.now system.now }
    ensures { IfOk result (λ b. (b ≡ true) ↔ AllNamesJoin signature.now system.now) }
{
    all_names_join(alloc, signature, system)
}
