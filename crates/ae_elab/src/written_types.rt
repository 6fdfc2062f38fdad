//! The sorts that written types are.

ghost use Rattle.std.specs.Prelude.{◌≡◌, List, ℕ, IfOk, IfErr};
ghost use Rattle.std.specs.List.{AllByRecursion};
ghost use Rattle.ae_core.specs.declared.problems.Signature.{Signature};
ghost use Rattle.ae_elab.specs.declared.faults.TypeFault.TheVariants as fault;
ghost use Rattle.ae_elab.specs.Declarations.{result_rule};
ghost use Rattle.ae_elab.specs.Names.{IsName, names_in_result, names_in_type};
ghost use Rattle.ae_elab.specs.Rules.{Passed, each};
ghost use Rattle.ae_elab.specs.Scope.{Local, name_in, scope_with, type_number};
ghost use Rattle.ae_elab.specs.Steps.{IsTaken, IsHalted};
ghost use Rattle.ae_elab.specs.WrittenTypes as rule;

use crate::faults::TypeFault;
use crate::grounds::Ground;
use crate::known::Known;
use crate::names::{name_at, word_of};
use crate::passing::Passing;
use ae_core::lists::List;
use ae_core::terms::Sort;
use ae_syntax::spans::Span;
use ae_syntax::types::{TypeKind, WrittenType};
use std::alloc::{AllocError, Global};

/// The fault of a name that isn't declared.
pub fn unknown_name(alloc: Global, name: &str, place: Span) -> Result<TypeFault, AllocError>
    ensures { IfOk result (λ e. e ≡ fault.UnknownName name.now place.from place.to) }
{
    let name = word_of(alloc, name)?;
    Ok(TypeFault::UnknownName {
        name,
        from: place.from as usize,
        to: place.to as usize,
    })
}

// The sort of a type variable.
#[tactic(auto, using(crate::proofs::TypeRules::variable_free, crate::proofs::TypeRules::variable_known, crate::proofs::TypeRules::variable_halts))]
fn variable_sort<'a>(
    alloc: Global,
    text: &'a [u8],
    ground: &Ground<'a>,
    passing: &mut Passing<'a>,
    place: Span,
) -> Result<Sort, TypeFault>
    requires name { IsName text.now place }
    ensures sort { IfOk result (λ s. (known : Signature) (locals : List Local) → IsTaken (rule.variable_rule ground.now (scope_with text.now known locals) place) passing.old passing.new s) }
    ensures fault { IfErr result (λ e. (known : Signature) (locals : List Local) → IsHalted (rule.variable_rule ground.now (scope_with text.now known locals) place) passing.old e) }
{
    let name = name_at(text, place);
    match ground {
        Ground::Free => Ok(passing.written_variable(name)?),
        Ground::InField { params, own: _ } => match params.number_of(name) {
            Some(number) => Ok(Sort::Var(number)),
            None => Err(unknown_name(alloc, name, place)?),
        },
    }
}

// Whether a type of a number may stand there: not the record type itself.
fn is_other<'a>(ground: &Ground<'a>, number: usize) -> bool
    ensures { result ≡ rule.is_other ground.now number }
{
    match ground {
        Ground::Free => true,
        Ground::InField { params: _, own } => number != *own,
    }
}

// The sort of a type's name, after its arguments.
fn named_sort<'a>(
    alloc: Global,
    text: &'a [u8],
    known: &Known<'a>,
    ground: &Ground<'a>,
    place: Span,
    args: List<Sort>,
) -> Result<Sort, TypeFault>
    requires name { IsName text.now place }
    ensures sort { IfOk result (λ s. (p : Passed) (locals : List Local) → IsTaken (rule.named_rule ground.now (scope_with text.now known.now locals) place args (type_number known.now (name_in text.now place))) p p s) }
    ensures fault { IfErr result (λ e. (p : Passed) (locals : List Local) → IsHalted (rule.named_rule ground.now (scope_with text.now known.now locals) place args (type_number known.now (name_in text.now place))) p e) }
{
    let name = name_at(text, place);
    let Some(head) = known.type_number(name) else {
        return Err(unknown_name(alloc, name, place)?);
    };
    if !is_other(ground, head) {
        return Err(TypeFault::SelfRecord {
            from: place.from as usize,
            to: place.to as usize,
        });
    }
    if !known.type_fits(head, args.len()) {
        return Err(TypeFault::Arity {
            from: place.from as usize,
            to: place.to as usize,
        });
    }
    Ok(Sort::Named { head, args })
}

/// The sort that a written type is. Its faults are a name that isn't declared, the record type itself in one of its
/// fields, and a wrong number of arguments; the arguments are taken from left to right, and the type's name after them.
pub fn sort_of<'a>(
    alloc: Global,
    text: &'a [u8],
    known: &Known<'a>,
    ground: &Ground<'a>,
    passing: &mut Passing<'a>,
    written: &WrittenType,
) -> Result<Sort, TypeFault>
    requires names { AllByRecursion (IsName text.now) (names_in_type written.now) }
    ensures sort { IfOk result (λ s. (locals : List Local) → IsTaken (rule.type_rule written.now ground.now (scope_with text.now known.now locals)) passing.old passing.new s) }
    ensures fault { IfErr result (λ e. (locals : List Local) → IsHalted (rule.type_rule written.now ground.now (scope_with text.now known.now locals)) passing.old e) }
{
    match &written.kind {
        TypeKind::Int => Ok(Sort::Int),
        TypeKind::Real => Ok(Sort::Real),
        TypeKind::Bool => Ok(Sort::Bool),
        TypeKind::Unit => Ok(Sort::Unit),
        TypeKind::Var => variable_sort(alloc, text, ground, passing, written.span),
        TypeKind::Named { name, args } => {
            let mut sorts = List::new(alloc);
            for arg in args.as_slice() {
                match sort_of(alloc, text, known, ground, passing, arg) {
                    Ok(sort) => sorts.push(sort)?,
                    Err(fault) => return Err(fault),
                }
            }
            named_sort(alloc, text, known, ground, *name, sorts)
        }
    }
}

/// The sorts that written types are, from left to right.
pub fn sorts_of<'a>(
    alloc: Global,
    text: &'a [u8],
    known: &Known<'a>,
    ground: &Ground<'a>,
    passing: &mut Passing<'a>,
    written: &List<WrittenType>,
) -> Result<List<Sort>, TypeFault>
    requires names { AllByRecursion (λ w. AllByRecursion (IsName text.now) (names_in_type w)) written.now }
    ensures sorts { IfOk result (λ ss. (locals : List Local) → IsTaken (each (λ w. rule.type_rule w ground.now (scope_with text.now known.now locals)) written.now) passing.old passing.new ss) }
    ensures fault { IfErr result (λ e. (locals : List Local) → IsHalted (each (λ w. rule.type_rule w ground.now (scope_with text.now known.now locals)) written.now) passing.old e) }
{
    let mut sorts = List::new(alloc);
    for item in written.as_slice() {
        match sort_of(alloc, text, known, ground, passing, item) {
            Ok(sort) => sorts.push(sort)?,
            Err(fault) => return Err(fault),
        }
    }
    Ok(sorts)
}

/// The sort of declared symbols' values; predicates have none.
pub fn result_of<'a>(
    alloc: Global,
    text: &'a [u8],
    known: &Known<'a>,
    passing: &mut Passing<'a>,
    written: &Option<WrittenType>,
) -> Result<Option<Sort>, TypeFault>
    requires names { AllByRecursion (IsName text.now) (names_in_result written.now) }
    ensures sort { IfOk result (λ s. IsTaken (result_rule text.now known.now written.now) passing.old passing.new s) }
    ensures fault { IfErr result (λ e. IsHalted (result_rule text.now known.now written.now) passing.old e) }
{
    match written {
        None => Ok(None),
        Some(value) => {
            let ground = Ground::Free;
            match sort_of(alloc, text, known, &ground, passing, value) {
                Ok(sort) => Ok(Some(sort)),
                Err(fault) => return Err(fault),
            }
        }
    }
}
