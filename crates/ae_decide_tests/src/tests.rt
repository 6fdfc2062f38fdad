use ae_core::lists::List;
use ae_core::problems::{AcSymbol, Kind, Nature, Signature, SymbolEntry, TypeEntry};
use ae_core::terms::{Head, Sort, Term};
use ae_core::words::Word;
use ae_decide::congruence::is_congruent;
use ae_decide::leaves::has_leaves;
use ae_decide::names::has_terms;
use ae_decide::overlaps::overlaps_join;
use ae_decide::records::has_records;
use ae_decide::reduction::are_reduced;
use ae_decide::rules::rules_fit;
use ae_journal::systems::{RuleEntry, System};
use ae_num::forms::{Name, Value};
use std::alloc::{AllocError, Global};
use std::test::Fail;

/// The first clause that refuses a system, of those that are told.
#[derive(Clone, Copy, Debug, PartialEq, Eq)]
enum Answer {
    Terms,
    Leaves,
    Records,
    Congruence,
    Rules,
    Reduction,
    Overlaps,
    Nothing,
}

fn first_refusal(
    alloc: Global,
    signature: &Signature,
    system: &System,
) -> Result<Answer, AllocError> {
    if !has_terms(alloc, signature, system)? {
        return Ok(Answer::Terms);
    }
    if !has_leaves(alloc, signature, system)? {
        return Ok(Answer::Leaves);
    }
    if !has_records(alloc, signature, system)? {
        return Ok(Answer::Records);
    }
    if !is_congruent(alloc, signature, system)? {
        return Ok(Answer::Congruence);
    }
    if !rules_fit(alloc, signature, system)? {
        return Ok(Answer::Rules);
    }
    if !are_reduced(alloc, system)? {
        return Ok(Answer::Reduction);
    }
    if !overlaps_join(alloc, system)? {
        return Ok(Answer::Overlaps);
    }
    Ok(Answer::Nothing)
}

/// The abstract type.
fn t(alloc: Global) -> Sort {
    Sort::Named {
        head: 0,
        args: List::new(alloc),
    }
}

/// A symbol that takes so many arguments of the abstract type and answers one.
fn symbol(alloc: Global, count: usize, nature: Nature) -> Result<SymbolEntry, AllocError> {
    let mut args = List::new(alloc);
    for _ in 0..count {
        args.push(t(alloc))?;
    }
    Ok(SymbolEntry {
        name: Word::from_string(String::new(alloc)),
        vars: 0,
        args,
        result: Some(t(alloc)),
        nature,
    })
}

/// The abstract type; constants 0 and 1, the function 2 of one argument, the AC symbol 3.
fn signature(alloc: Global) -> Result<Signature, AllocError> {
    let mut types = List::new(alloc);
    types.push(TypeEntry {
        name: Word::from_string(String::new(alloc)),
        arity: 0,
        kind: Kind::Abstract,
    })?;
    let mut symbols = List::new(alloc);
    symbols.push(symbol(alloc, 0, Nature::Free)?)?;
    symbols.push(symbol(alloc, 0, Nature::Free)?)?;
    symbols.push(symbol(alloc, 1, Nature::Free)?)?;
    symbols.push(symbol(alloc, 2, Nature::Ac)?)?;
    Ok(Signature { types, symbols })
}

fn applied(alloc: Global, symbol: usize, args: List<Term>) -> Term {
    Term::Apply {
        head: Head::Symbol(symbol),
        sorts: List::new(alloc),
        args,
    }
}

fn constant(alloc: Global, symbol: usize) -> Term {
    applied(alloc, symbol, List::new(alloc))
}

/// The function 2 of a constant.
fn image(alloc: Global, symbol: usize) -> Result<Term, AllocError> {
    let mut args = List::new(alloc);
    args.push(constant(alloc, symbol))?;
    Ok(applied(alloc, 2, args))
}

/// The constants and their images, with these leaves as values, and these rules.
fn system(alloc: Global, leaves: &[Name], rules: List<RuleEntry>) -> Result<System, AllocError> {
    let mut names = List::new(alloc);
    names.push(constant(alloc, 0))?;
    names.push(constant(alloc, 1))?;
    names.push(image(alloc, 0)?)?;
    names.push(image(alloc, 1)?)?;
    let mut values = List::new(alloc);
    for leaf in leaves {
        values.push(Value::Leaf(*leaf))?;
    }
    Ok(System {
        names,
        values,
        rules,
    })
}

/// A rule of the AC symbol.
fn rule(alloc: Global, left: &[Name], right: &[Name]) -> Result<RuleEntry, AllocError> {
    Ok(RuleEntry {
        symbol: AcSymbol {
            head: Head::Symbol(3),
            sorts: List::new(alloc),
        },
        left: List::from_slice(alloc, left)?,
        right: List::from_slice(alloc, right)?,
    })
}

fn told(alloc: Global, leaves: &[Name], rules: List<RuleEntry>) -> Result<Answer, AllocError> {
    let signature = signature(alloc)?;
    let system = system(alloc, leaves, rules)?;
    first_refusal(alloc, &signature, &system)
}

#[test]
fn values_of_names(rt: HostRuntime) -> Result<(), Fail> {
    let alloc = rt.alloc();
    let none = List::new(alloc);
    assert_eq!(rt; told(alloc, &[0, 1, 2, 3], none)?, Answer::Nothing);
    let none = List::new(alloc);
    assert_eq!(rt; told(alloc, &[0, 0, 2, 2], none)?, Answer::Nothing);
    let none = List::new(alloc);
    assert_eq!(rt; told(alloc, &[0, 0, 2, 3], none)?, Answer::Congruence);
    let none = List::new(alloc);
    assert_eq!(rt; told(alloc, &[0, 1, 2, 4], none)?, Answer::Leaves);
    let none = List::new(alloc);
    assert_eq!(rt; told(alloc, &[0, 1, 2], none)?, Answer::Terms);
    Ok(())
}

#[test]
fn rules_of_a_symbol(rt: HostRuntime) -> Result<(), Fail> {
    let alloc = rt.alloc();
    let mut rules = List::new(alloc);
    rules.push(rule(alloc, &[0, 1], &[2])?)?;
    assert_eq!(rt; told(alloc, &[0, 1, 2, 3], rules)?, Answer::Nothing);
    let mut rules = List::new(alloc);
    rules.push(rule(alloc, &[2], &[0])?)?;
    assert_eq!(rt; told(alloc, &[0, 1, 2, 3], rules)?, Answer::Rules);
    let mut rules = List::new(alloc);
    rules.push(rule(alloc, &[0, 1], &[2])?)?;
    rules.push(rule(alloc, &[1, 0, 0], &[2])?)?;
    assert_eq!(rt; told(alloc, &[0, 1, 2, 3], rules)?, Answer::Reduction);
    let mut rules = List::new(alloc);
    rules.push(rule(alloc, &[0, 1], &[2])?)?;
    rules.push(rule(alloc, &[0, 2], &[3])?)?;
    assert_eq!(rt; told(alloc, &[0, 1, 2, 3], rules)?, Answer::Overlaps);
    let mut rules = List::new(alloc);
    rules.push(rule(alloc, &[0, 0], &[0])?)?;
    rules.push(rule(alloc, &[0, 1], &[0])?)?;
    assert_eq!(rt; told(alloc, &[0, 1, 2, 3], rules)?, Answer::Nothing);
    Ok(())
}
