//! What no clause says: that the calls succeed where there is memory, and how long they take.

ghost use Rattle.std.specs.Prelude.{◌<◌};

use ae_core::lists::List;
use ae_core::sorts::is_sort;
use ae_core::terms::Sort;
use ae_types::{Bindings, Clash, SortPair, unify};
use std::alloc::{AllocError, Global};
use std::test::Fail;

/// A type of one argument.
fn one(alloc: Global, head: usize, arg: Sort) -> Result<Sort, AllocError> {
    let mut args = List::new(alloc);
    args.push(arg)?;
    Ok(Sort::Named { head, args })
}

/// A type of two arguments.
fn two(alloc: Global, head: usize, left: Sort, right: Sort) -> Result<Sort, AllocError> {
    let mut args = List::new(alloc);
    args.push(left)?;
    args.push(right)?;
    Ok(Sort::Named { head, args })
}

fn pair(left: Sort, right: Sort) -> SortPair {
    SortPair { left, right }
}

/// Whether the bindings of one pair put a sort for a variable.
fn puts(alloc: Global, left: Sort, right: Sort, var: usize, sort: &Sort) -> Result<bool, Fail> {
    let mut pairs = Vec::new(alloc);
    pairs.push(pair(left, right))?;
    match unify(alloc, pairs.as_slice()) {
        Ok(bindings) => Ok(is_sort(&bindings.apply(&Sort::Var(var))?, sort)),
        Err(_) => Ok(false),
    }
}

/// Whether the answer is that these two sorts differ.
fn differ(answer: &Result<Bindings, Clash>, one: &Sort, other: &Sort) -> bool {
    match answer {
        Err(Clash::Differ { left, right }) => is_sort(left, one) && is_sort(right, other),
        _ => false,
    }
}

/// Whether the answer is a cycle of this variable and this sort.
fn is_cycle(answer: &Result<Bindings, Clash>, from: usize, to: &Sort) -> bool {
    match answer {
        Err(Clash::Cycle { var, sort }) => *var == from && is_sort(sort, to),
        _ => false,
    }
}

#[test]
fn binds(rt: HostRuntime) -> Result<(), Fail> {
    let alloc = rt.alloc();
    assert!(rt;
        puts(
            alloc,
            one(alloc, 3, Sort::Int)?,
            one(alloc, 3, Sort::Int)?,
            7,
            &Sort::Var(7)
        )?
    );
    assert!(rt; puts(alloc, Sort::Var(1), Sort::Var(2), 2, &Sort::Var(1))?);
    let left = two(alloc, 3, Sort::Var(7), Sort::Int)?;
    let right = two(alloc, 3, Sort::Bool, Sort::Var(9))?;
    assert!(rt; puts(alloc, left, right, 7, &Sort::Bool)?);
    let left = two(alloc, 3, Sort::Var(7), Sort::Int)?;
    let right = two(alloc, 3, Sort::Bool, Sort::Var(9))?;
    assert!(rt; puts(alloc, left, right, 9, &Sort::Int)?);
    Ok(())
}

#[test]
fn refuses(rt: HostRuntime) -> Result<(), Fail> {
    let alloc = rt.alloc();
    let mut heads = Vec::new(alloc);
    heads.push(pair(
        one(alloc, 3, Sort::Rigid(0))?,
        one(alloc, 3, Sort::Rigid(1))?,
    ))?;
    assert!(rt;
        differ(
            &unify(alloc, heads.as_slice()),
            &Sort::Rigid(0),
            &Sort::Rigid(1)
        )
    );
    let mut counts = Vec::new(alloc);
    counts.push(pair(
        one(alloc, 3, Sort::Int)?,
        two(alloc, 3, Sort::Int, Sort::Int)?,
    ))?;
    assert!(rt;
        differ(
            &unify(alloc, counts.as_slice()),
            &one(alloc, 3, Sort::Int)?,
            &two(alloc, 3, Sort::Int, Sort::Int)?
        )
    );
    let mut cyclic = Vec::new(alloc);
    cyclic.push(pair(Sort::Var(0), one(alloc, 3, Sort::Var(1))?))?;
    cyclic.push(pair(Sort::Var(1), one(alloc, 4, Sort::Var(0))?))?;
    let inner = one(alloc, 4, Sort::Var(0))?;
    assert!(rt; is_cycle(&unify(alloc, cyclic.as_slice()), 0, &one(alloc, 3, inner)?));
    Ok(())
}

#[test]
fn takes_pairs_one_at_a_time(rt: HostRuntime) -> Result<(), Fail> {
    let alloc = rt.alloc();
    let mut bindings = Bindings::new(alloc);
    assert!(rt;
        bindings
            .equate(&Sort::Var(0), &one(alloc, 3, Sort::Var(1))?)
            .is_ok()
    );
    assert!(rt; bindings.equate(&Sort::Var(0), &Sort::Int).is_err());
    assert!(rt; bindings.equate(&Sort::Var(1), &Sort::Var(0)).is_err());
    assert!(rt;
        is_sort(
            &bindings.apply(&Sort::Var(0))?,
            &one(alloc, 3, Sort::Var(1))?
        )
    );
    assert!(rt; bindings.equate(&Sort::Var(1), &Sort::Real).is_ok());
    assert!(rt; is_sort(&bindings.apply(&Sort::Var(0))?, &one(alloc, 3, Sort::Real)?));
    Ok(())
}

/// Whether a chain of variables ends as one.
#[test]
fn links_a_long_chain(rt: HostRuntime) -> Result<(), Fail> {
    let alloc = rt.alloc();
    let mut pairs = Vec::new(alloc);
    for i in 0..10000usize {
        pairs.push(pair(Sort::Var(10000 - i), Sort::Var(9999 - i)))?;
    }
    match unify(alloc, pairs.as_slice()) {
        Ok(bindings) => {
            let first = bindings.apply(&Sort::Var(10000))?;
            assert!(rt; is_sort(&first, &bindings.apply(&Sort::Var(0))?));
        }
        Err(_) => assert!(rt; false),
    }
    Ok(())
}

/// Pairs whose unifier is exponentially large as a tree: each variable of a level stands for a type of two equal
/// variables of the next.
fn ladder(alloc: Global, levels: usize) -> Result<Vec<SortPair>, AllocError>
    requires { levels < 10000 }
{
    let mut pairs = Vec::new(alloc);
    for i in 0..levels {
        let low = two(alloc, 0, Sort::Var(2 * i + 2), Sort::Var(2 * i + 2))?;
        pairs.push(pair(Sort::Var(2 * i), low))?;
        let high = two(alloc, 0, Sort::Var(2 * i + 3), Sort::Var(2 * i + 3))?;
        pairs.push(pair(Sort::Var(2 * i + 1), high))?;
    }
    pairs.push(pair(Sort::Var(0), Sort::Var(1)))?;
    Ok(pairs)
}

#[test]
fn shares_the_parts_of_sorts(rt: HostRuntime) -> Result<(), Fail> {
    let alloc = rt.alloc();
    let tall = ladder(alloc, 30)?;
    assert!(rt; unify(alloc, tall.as_slice()).is_ok());
    let taller = ladder(alloc, 1000)?;
    assert!(rt; unify(alloc, taller.as_slice()).is_ok());
    Ok(())
}
