//! The equations of two records, and the clauses of enumerations.
ghost use Rattle.std.specs.Prelude.{◌≡◌, ◌∷◌, [], IfOk};
ghost use Rattle.ae_num.specs.declared.forms.Value.{Fields};

use ae_core::formulas::{Clause, Formula, Lit};
use ae_core::lists::List;
use ae_core::problems::{Kind, Nature, Signature, SymbolEntry, TypeEntry};
use ae_core::terms::{Head, Sort, Term};
use ae_core::words::Word;
use ae_data::enumerations::exhaust;
use ae_data::records::split;
use ae_num::forms::{Value, single};
use std::alloc::{AllocError, Global};
use std::test::Fail;

/// The value of a record of two fields.
fn record_of(alloc: Global, first: Value, second: Value) -> Result<Value, AllocError>
    ensures { IfOk result (λ v. v ≡ Fields (first ∷ second ∷ [])) }
{
    let mut values = List::new(alloc);
    values.push(first)?;
    values.push(second)?;
    Ok(Value::Fields(values))
}

fn is_leaf(value: &Value, name: usize) -> bool {
    match value {
        Value::Leaf(found) => *found == name,
        _ => false,
    }
}

fn is_number_of(value: &Value, name: usize) -> bool {
    match value {
        Value::Number(lin) => match lin.parts.as_slice().first() {
            Some(part) => part.key == name,
            None => false,
        },
        _ => false,
    }
}

#[test]
fn records_are_equated_field_by_field(rt: HostRuntime) -> Result<(), Fail> {
    let alloc = rt.alloc();
    let left = record_of(alloc, Value::Leaf(3), Value::Number(single(alloc, 4)?))?;
    let right = record_of(alloc, Value::Leaf(5), Value::Number(single(alloc, 6)?))?;
    let equations = split(alloc, &left, &right)?;
    assert_eq!(rt; equations.len(), 2);
    if let Some(first) = equations.get(0) {
        assert!(rt; is_leaf(&first.left, 3) && is_leaf(&first.right, 5));
    }
    if let Some(second) = equations.get(1) {
        assert!(rt; is_number_of(&second.left, 4) && is_number_of(&second.right, 6));
    }
    Ok(())
}

fn symbol(alloc: Global, nature: Nature) -> Result<SymbolEntry, AllocError> {
    Ok(SymbolEntry {
        name: Word::from_string(String::new(alloc)),
        vars: 0,
        args: List::new(alloc),
        result: Some(Sort::Named {
            head: 0,
            args: List::new(alloc),
        }),
        nature,
    })
}

/// An enumeration of the constructors 0 and 1, and a constant 2 of it.
fn two_colours(alloc: Global) -> Result<Signature, AllocError> {
    let mut types = List::new(alloc);
    types.push(TypeEntry {
        name: Word::from_string(String::new(alloc)),
        arity: 0,
        kind: Kind::Choices(List::from_slice(alloc, &[0, 1])?),
    })?;
    let mut symbols = List::new(alloc);
    symbols.push(symbol(alloc, Nature::Choice { of: 0, place: 0 })?)?;
    symbols.push(symbol(alloc, Nature::Choice { of: 0, place: 1 })?)?;
    symbols.push(symbol(alloc, Nature::Free)?)?;
    Ok(Signature { types, symbols })
}

fn constant(alloc: Global, head: Head) -> Term {
    Term::Apply {
        head,
        sorts: List::new(alloc),
        args: List::new(alloc),
    }
}

/// Whether a literal says that a term is the constant of this head.
fn equates_with(lit: &Lit, head: Head) -> bool {
    match &lit.formula {
        Formula::Eq {
            right: Term::Apply { head: found, .. },
            ..
        } => lit.positive && *found == head,
        _ => false,
    }
}

/// Whether a clause says that a term is one of two constants.
fn is_one_of(clause: &Clause, first: Head, second: Head) -> bool {
    match clause.as_slice() {
        [one, other] => equates_with(one, first) && equates_with(other, second),
        _ => false,
    }
}

/// Whether the clause of a constant says that it is one of two others.
fn constant_is(
    alloc: Global,
    signature: &Signature,
    own: Head,
    first: Head,
    second: Head,
) -> Result<bool, Fail> {
    let term = constant(alloc, own);
    match exhaust(alloc, signature, &term)? {
        Some(clause) => Ok(is_one_of(&clause, first, second)),
        None => Ok(false),
    }
}

/// Whether a numeral has no clause.
fn number_has_none(alloc: Global, signature: &Signature) -> Result<bool, Fail> {
    let number = Term::Num {
        top: 7,
        bottom: 1,
        real: false,
    };
    Ok(exhaust(alloc, signature, &number)?.is_none())
}

#[test]
fn a_term_of_an_enumeration_is_one_of_its_constructors(rt: HostRuntime) -> Result<(), Fail> {
    let alloc = rt.alloc();
    let signature = two_colours(alloc)?;
    let (zero, one) = (Head::Symbol(0), Head::Symbol(1));
    assert!(rt;
        constant_is(alloc, &signature, Head::Symbol(2), zero, one)?,
        "a declared enumeration"
    );
    assert!(rt;
        constant_is(alloc, &signature, Head::True, Head::True, Head::False)?,
        "`bool`"
    );
    assert!(rt; number_has_none(alloc, &signature)?);
    Ok(())
}
