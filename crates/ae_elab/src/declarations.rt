//! Declarations that need no terms: symbols, enumerations and types.

ghost use Rattle.std.specs.Prelude.{◌≡◌, ℕ, List, map, IfOk, IfErr, OnOk};
ghost use Rattle.std.specs.List.{AllByRecursion};
ghost use Rattle.ae_core.specs.declared.problems.Signature.{Signature};
ghost use Rattle.ae_elab.specs.Declarations as rule;
ghost use Rattle.ae_elab.specs.Inner.Fields.{no_fields, declares_fields};
ghost use Rattle.ae_elab.specs.Names.{IsName, names_in_result, names_in_type, names_in_typed};
ghost use Rattle.ae_elab.specs.Rules.{Passed};
ghost use Rattle.ae_elab.specs.Scope.{name_in};
ghost use Rattle.ae_elab.specs.Steps.{IsTaken, IsHalted};

use crate::faults::TypeFault;
use crate::grounds::Ground;
use crate::known::Known;
use crate::names::{name_at, word_of};
use crate::new_names::{all_different, new_symbols, new_type, twice};
use crate::passing::Passing;
use crate::sort_entries::{generalize_all, generalized};
use crate::written_types::{result_of, sort_of, sorts_of};
use ae_core::equality::same_sort;
use ae_core::lists::List;
use ae_core::problems::{FieldEntry, Kind, Nature, SymbolEntry, TypeEntry};
use ae_core::terms::Sort;
use ae_syntax::decls::{SymbolResult, TypedName};
use ae_syntax::spans::Span;
use ae_syntax::types::WrittenType;
use std::alloc::{AllocError, Global};

/// The entry of a symbol of so many type variables, with arguments and a value of these sorts.
pub fn symbol_entry(
    alloc: Global,
    name: &str,
    vars: usize,
    args: &[Sort],
    value: &Option<Sort>,
    nature: Nature,
) -> Result<SymbolEntry, AllocError>
    ensures { IfOk result (λ e. e ≡ rule.symbol_entry name.now vars args.now value.now nature) }
{
    let name = word_of(alloc, name)?;
    let args = generalize_all(alloc, args)?;
    let result = generalized(alloc, value)?;
    Ok(SymbolEntry {
        name,
        vars,
        args,
        result,
        nature,
    })
}

// Symbols of these names, behind the others.
fn push_symbols<'a>(
    alloc: Global,
    text: &'a [u8],
    known: &mut Known<'a>,
    names: &List<Span>,
    vars: usize,
    args: &[Sort],
    value: &Option<Sort>,
    nature: Nature,
) -> Result<(), AllocError>
    requires names { AllByRecursion (IsName text.now) names.now }
    ensures symbols { OnOk result (known.new ≡ rule.with_symbols known.old (map (λ x. rule.symbol_entry (name_in text.now x) vars args.now value.now nature) names.now)) }
{
    for place in names.as_slice() {
        let name = name_at(text, *place);
        let entry = symbol_entry(alloc, name, vars, args, value, nature)?;
        known.push_symbol(name, entry)?;
    }
    Ok(())
}

// Whether there are two equal arguments and that same value.
fn is_ac(args: &[Sort], value: &Option<Sort>) -> bool
    ensures { result ≡ rule.is_ac args.now value.now }
{
    match (args, value) {
        ([left, right], Some(sort)) => same_sort(left, right) && same_sort(left, sort),
        _ => false,
    }
}

// Whether the sorts are those of an AC symbol, if the symbol is to be one.
fn may_be_ac(ac: bool, args: &[Sort], value: &Option<Sort>) -> bool
    ensures { result ≡ rule.may_be_ac ac args.now value.now }
{
    !ac || is_ac(args, value)
}

fn nature_of(ac: bool) -> Nature
    ensures { result ≡ rule.nature_of ac }
{
    match ac {
        true => Nature::Ac,
        false => Nature::Free,
    }
}

/// `logic`: declared symbols. Their names are looked at first, then the sorts of their arguments, the sort of their
/// value, and whether an AC symbol has two equal arguments and that same value.
pub fn logic<'a>(
    alloc: Global,
    text: &'a [u8],
    known: &mut Known<'a>,
    passing: &mut Passing<'a>,
    place: Span,
    ac: bool,
    names: &List<Span>,
    args: &List<WrittenType>,
    value: &SymbolResult,
) -> Result<(), TypeFault>
    requires names { AllByRecursion (IsName text.now) names.now }
    requires args { AllByRecursion (λ w. AllByRecursion (IsName text.now) (names_in_type w)) args.now }
    requires value { AllByRecursion (IsName text.now) (names_in_result value.now.sort) }
    ensures declared { OnOk result (IsTaken (rule.logic_decl text.now known.old place ac names.now args.now value.now) passing.old passing.new (rule.only_declared known.new)) }
    ensures fault { IfErr result (λ e. IsHalted (rule.logic_decl text.now known.old place ac names.now args.now value.now) passing.old e) }
{
    match new_symbols(alloc, text, known, names) {
        Ok(()) => {}
        Err(fault) => return Err(fault),
    }
    let ground = Ground::Free;
    match sorts_of(alloc, text, known, &ground, passing, args) {
        Ok(sorts) => match result_of(alloc, text, known, passing, &value.sort) {
            Ok(result) => {
                let own = sorts.as_slice();
                if !may_be_ac(ac, own, &result) {
                    return Err(TypeFault::BadAc {
                        from: place.from as usize,
                        to: place.to as usize,
                    });
                }
                let vars = passing.count_written();
                let nature = nature_of(ac);
                match push_symbols(alloc, text, known, names, vars, own, &result, nature) {
                    Ok(()) => Ok(()),
                    Err(error) => Err(TypeFault::Memory(error)),
                }
            }
            Err(fault) => return Err(fault),
        },
        Err(fault) => return Err(fault),
    }
}

// Numbers from one on, as many as there are constructors.
#[tactic(auto, using(crate::proofs::DeclRules::count_next))]
fn numbers_from(
    alloc: Global,
    first: usize,
    constructors: &List<Span>,
) -> Result<List<usize>, AllocError>
    ensures { IfOk result (λ ns. ns ≡ rule.count_from first constructors.now) }
{
    let mut numbers = List::new(alloc);
    let mut next = first;
    for _constructor in constructors.as_slice() {
        numbers.push(next)?;
        next = next.checked_add(1).ok_or(AllocError)?;
    }
    Ok(numbers)
}

// The constructors of the enumeration of a number, behind the other symbols.
fn push_constructors<'a>(
    alloc: Global,
    text: &'a [u8],
    known: &mut Known<'a>,
    of: usize,
    constructors: &List<Span>,
) -> Result<(), AllocError>
    requires names { AllByRecursion (IsName text.now) constructors.now }
    ensures symbols { OnOk result (known.new ≡ rule.with_symbols known.old (rule.constructors_from text.now of 0 constructors.now)) }
{
    let mut place: usize = 0;
    for constructor in constructors.as_slice() {
        let name = name_at(text, *constructor);
        let value = Some(Sort::Named {
            head: of,
            args: List::new(alloc),
        });
        let nature = Nature::Choice { of, place };
        let entry = symbol_entry(alloc, name, 0, &[], &value, nature)?;
        known.push_symbol(name, entry)?;
        place += 1;
    }
    Ok(())
}

/// `type` with constructors: an enumeration. Its name is looked at first, and then those of its constructors.
pub fn enumeration<'a>(
    alloc: Global,
    text: &'a [u8],
    known: &mut Known<'a>,
    name: Span,
    constructors: &List<Span>,
) -> Result<(), TypeFault>
    requires name { IsName text.now name }
    requires constructors { AllByRecursion (IsName text.now) constructors.now }
    ensures declared { OnOk result ((p : Passed) → IsTaken (rule.enumeration_decl text.now known.old name constructors.now) p p (rule.only_declared known.new)) }
    ensures fault { IfErr result (λ e. (p : Passed) → IsHalted (rule.enumeration_decl text.now known.old name constructors.now) p e) }
{
    match new_type(alloc, text, known, name) {
        Ok(()) => {}
        Err(fault) => return Err(fault),
    }
    match new_symbols(alloc, text, known, constructors) {
        Ok(()) => {}
        Err(fault) => return Err(fault),
    }
    let of = known.signature().types.len();
    let first = known.signature().symbols.len();
    let numbers = numbers_from(alloc, first, constructors)?;
    let own = name_at(text, name);
    let word = word_of(alloc, own)?;
    let entry = TypeEntry {
        name: word,
        arity: 0,
        kind: Kind::Choices(numbers),
    };
    known.push_type(own, entry)?;
    match push_constructors(alloc, text, known, of, constructors) {
        Ok(()) => Ok(()),
        Err(error) => Err(TypeFault::Memory(error)),
    }
}

// The fields of the last type, a record type without fields so far. Each name is looked at before its sort.
fn add_fields<'a>(
    alloc: Global,
    text: &'a [u8],
    known: &mut Known<'a>,
    passing: &mut Passing<'a>,
    ground: &Ground<'a>,
    fields: &List<TypedName>,
) -> Result<(), TypeFault>
    requires names { AllByRecursion (λ x. AllByRecursion (IsName text.now) (names_in_typed x)) fields.now }
    ensures declared { (before : Signature) (own : List ℕ) (arity : ℕ) → known.old ≡ no_fields before own arity → OnOk result (IsTaken (declares_fields text.now before ground.now own arity fields.now) passing.old passing.new (rule.only_declared known.new)) }
    ensures fault { (before : Signature) (own : List ℕ) (arity : ℕ) → known.old ≡ no_fields before own arity → IfErr result (λ e. IsHalted (declares_fields text.now before ground.now own arity fields.now) passing.old e) }
{
    for field in fields.as_slice() {
        let name = name_at(text, field.name);
        if known.field_place(name).is_some() {
            return Err(twice(alloc, name, field.name)?);
        }
        match sort_of(alloc, text, known, ground, passing, &field.sort) {
            Ok(sort) => {
                let word = word_of(alloc, name)?;
                known.push_field(alloc, name, FieldEntry { name: word, sort })?;
            }
            Err(fault) => return Err(fault),
        }
    }
    Ok(())
}

/// `type` without constructors: an abstract type, or a record type where there are fields. Its parameters are looked at
/// first, then its name, and then its fields.
pub fn type_decl<'a>(
    alloc: Global,
    text: &'a [u8],
    known: &mut Known<'a>,
    passing: &mut Passing<'a>,
    params: &List<Span>,
    name: Span,
    fields: &List<TypedName>,
) -> Result<(), TypeFault>
    requires params { AllByRecursion (IsName text.now) params.now }
    requires name { IsName text.now name }
    requires fields { AllByRecursion (λ x. AllByRecursion (IsName text.now) (names_in_typed x)) fields.now }
    ensures declared { OnOk result (IsTaken (rule.type_decl text.now known.old params.now name fields.now) passing.old passing.new (rule.only_declared known.new)) }
    ensures fault { IfErr result (λ e. IsHalted (rule.type_decl text.now known.old params.now name fields.now) passing.old e) }
{
    match all_different(alloc, text, params) {
        Ok(parameters) => {
            match new_type(alloc, text, known, name) {
                Ok(()) => {}
                Err(fault) => return Err(fault),
            }
            let own = name_at(text, name);
            let word = word_of(alloc, own)?;
            let arity = params.len();
            let number = known.signature().types.len();
            if fields.is_empty() {
                let entry = TypeEntry {
                    name: word,
                    arity,
                    kind: Kind::Abstract,
                };
                match known.push_type(own, entry) {
                    Ok(()) => Ok(()),
                    Err(error) => Err(TypeFault::Memory(error)),
                }
            } else {
                let entry = TypeEntry {
                    name: word,
                    arity,
                    kind: Kind::Fields(List::new(alloc)),
                };
                known.push_type(own, entry)?;
                let ground = Ground::InField {
                    params: parameters,
                    own: number,
                };
                match add_fields(alloc, text, known, passing, &ground, fields) {
                    Ok(()) => Ok(()),
                    Err(fault) => return Err(fault),
                }
            }
        }
        Err(fault) => return Err(fault),
    }
}
