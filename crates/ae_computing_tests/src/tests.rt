use ae_computing::computing::has_computed;
use ae_core::lists::List;
use ae_core::problems::{Nature, Signature, SymbolEntry};
use ae_core::terms::{Head, Op, Sort, Term};
use ae_core::words::Word;
use ae_decide::leaves::has_leaves;
use ae_decide::names::has_terms;
use ae_journal::systems::System;
use ae_num::forms::{Lin, Name, Part, Value};
use std::alloc::{AllocError, Global};
use std::test::Fail;

/// Two constants of sort `Real`.
fn signature(alloc: Global) -> Result<Signature, AllocError> {
    let mut symbols = List::new(alloc);
    for _ in 0..2 {
        symbols.push(SymbolEntry {
            name: Word::from_string(String::new(alloc)),
            vars: 0,
            args: List::new(alloc),
            result: Some(Sort::Real),
            nature: Nature::Free,
        })?;
    }
    Ok(Signature {
        types: List::new(alloc),
        symbols,
    })
}

fn constant(alloc: Global, symbol: usize) -> Term {
    Term::Apply {
        head: Head::Symbol(symbol),
        sorts: List::new(alloc),
        args: List::new(alloc),
    }
}

fn numeral(top: i128, bottom: i128) -> Term {
    Term::Num {
        top,
        bottom,
        real: true,
    }
}

fn applied(alloc: Global, op: Op, left: Term, right: Term) -> Result<Term, AllocError> {
    let mut args = List::new(alloc);
    args.push(left)?;
    args.push(right)?;
    Ok(Term::Apply {
        head: Head::Real(op),
        sorts: List::new(alloc),
        args,
    })
}

/// The value `(first * x + second * y + constant) / den` over the names 0 and 1.
fn value(
    alloc: Global,
    first: i128,
    second: i128,
    constant: i128,
    den: i128,
) -> Result<Value, AllocError> {
    let mut parts = List::new(alloc);
    if first != 0 {
        parts.push(Part {
            key: 0,
            factor: first,
        })?;
    }
    if second != 0 {
        parts.push(Part {
            key: 1,
            factor: second,
        })?;
    }
    Ok(Value::Number(Lin {
        den,
        parts,
        constant,
    }))
}

/// The constants x and y, the numeral `top / bottom`, and an operation on x and the other of them that is told, with this value.
fn system(
    alloc: Global,
    op: Op,
    other: Name,
    top: i128,
    bottom: i128,
    stated: Value,
) -> Result<System, AllocError> {
    let mut names = List::new(alloc);
    names.push(constant(alloc, 0))?;
    names.push(constant(alloc, 1))?;
    names.push(numeral(top, bottom))?;
    let right = if other == 1 {
        constant(alloc, 1)
    } else {
        numeral(top, bottom)
    };
    names.push(applied(alloc, op, constant(alloc, 0), right)?)?;
    let mut values = List::new(alloc);
    values.push(value(alloc, 1, 0, 0, 1)?)?;
    values.push(value(alloc, 0, 1, 0, 1)?)?;
    values.push(value(alloc, 0, 0, top, bottom)?)?;
    values.push(stated)?;
    Ok(System {
        names,
        values,
        rules: List::new(alloc),
    })
}

/// Whether a system meets the third clause; `None` where it doesn't meet the first two.
fn told(
    alloc: Global,
    op: Op,
    other: Name,
    top: i128,
    bottom: i128,
    stated: Value,
) -> Result<Option<bool>, AllocError> {
    let signature = signature(alloc)?;
    let system = system(alloc, op, other, top, bottom, stated)?;
    if !has_terms(alloc, &signature, &system)? {
        return Ok(None);
    }
    if !has_leaves(alloc, &signature, &system)? {
        return Ok(None);
    }
    Ok(Some(has_computed(alloc, &signature, &system)?))
}

/// The greatest number within the limits.
const MOST: i128 = i128::MAX;

#[test]
fn sums_and_differences(rt: HostRuntime) -> Result<(), Fail> {
    let alloc = rt.alloc();
    let sum = value(alloc, 1, 1, 0, 1)?;
    assert_eq!(rt; told(alloc, Op::Add, 1, 1, 2, sum)?, Some(true));
    let less = value(alloc, 1, 0, 0, 1)?;
    assert_eq!(rt; told(alloc, Op::Add, 1, 1, 2, less)?, Some(false));
    let difference = value(alloc, 1, -1, 0, 1)?;
    assert_eq!(rt; told(alloc, Op::Sub, 1, 1, 2, difference)?, Some(true));
    let turned = value(alloc, -1, 1, 0, 1)?;
    assert_eq!(rt; told(alloc, Op::Sub, 1, 1, 2, turned)?, Some(false));
    let half_more = value(alloc, 2, 0, 1, 2)?;
    assert_eq!(rt; told(alloc, Op::Add, 2, 1, 2, half_more)?, Some(true));
    let one_more = value(alloc, 1, 0, 1, 1)?;
    assert_eq!(rt; told(alloc, Op::Add, 2, 1, 2, one_more)?, Some(false));
    Ok(())
}

#[test]
fn products_and_quotients(rt: HostRuntime) -> Result<(), Fail> {
    let alloc = rt.alloc();
    let product = value(alloc, MOST, 0, 0, 2)?;
    assert_eq!(rt; told(alloc, Op::Mul, 2, MOST, 2, product)?, Some(true));
    let quotient = value(alloc, 2, 0, 0, MOST)?;
    assert_eq!(rt; told(alloc, Op::Div, 2, MOST, 2, quotient)?, Some(true));
    let turned = value(alloc, 2, 0, 0, MOST)?;
    assert_eq!(rt; told(alloc, Op::Mul, 2, MOST, 2, turned)?, Some(false));
    let opaque = value(alloc, 0, 1, 0, 1)?;
    assert_eq!(rt; told(alloc, Op::Mul, 1, 1, 2, opaque)?, Some(true));
    Ok(())
}
