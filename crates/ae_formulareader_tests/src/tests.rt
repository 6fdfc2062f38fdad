//! Formulas over a few symbols, read and written again; what no formula's text goes on to. What is expected is written by hand from the rules of the texts.
use ae_base::lists::{Boxed, List};
use ae_core::formulas::Formula;
use ae_core::problems::{Kind, Nature, Signature, SymbolEntry, TypeEntry};
use ae_core::terms::Sort;
use ae_core::words::Word;
use ae_formulareader::{read_clause, read_formula, read_positive};
use ae_prooftext::{put_formula, put_literals};
use ae_readers::{Closing, Fault};
use ae_termreader::Tables;
use std::alloc::{AllocError, Global};
use std::test::Fail;

fn word(alloc: Global, name: &str) -> Result<Word, AllocError> {
    Ok(Word::from_string(String::from_str(alloc, name)?))
}

fn element(alloc: Global) -> Sort {
    Sort::Named {
        head: 0,
        args: List::new(alloc),
    }
}

fn symbol(name: Word, args: List<Sort>, gives: Option<Sort>) -> SymbolEntry {
    SymbolEntry {
        name,
        vars: 0,
        args,
        result: gives,
        nature: Nature::Free,
    }
}

fn types(alloc: Global) -> Result<List<TypeEntry>, AllocError> {
    let mut types = List::new(alloc);
    types.push(TypeEntry {
        name: word(alloc, "t")?,
        arity: 0,
        kind: Kind::Abstract,
    })?;
    Ok(types)
}

fn one_element(alloc: Global) -> Result<List<Sort>, AllocError> {
    let mut sorts = List::new(alloc);
    sorts.push(element(alloc))?;
    Ok(sorts)
}

fn symbols(alloc: Global) -> Result<List<SymbolEntry>, AllocError> {
    let mut symbols = List::new(alloc);
    let a = word(alloc, "a")?;
    symbols.push(symbol(a, List::new(alloc), Some(element(alloc))))?;
    let p = word(alloc, "p")?;
    symbols.push(symbol(p, one_element(alloc)?, None))?;
    let q = word(alloc, "q")?;
    symbols.push(symbol(q, List::new(alloc), None))?;
    Ok(symbols)
}

/// One type `t`, its constant `a`, a predicate `p` of `t`, and a proposition `q`.
fn signature(alloc: Global) -> Result<Signature, AllocError> {
    let types = types(alloc)?;
    let symbols = symbols(alloc)?;
    Ok(Signature { types, symbols })
}

// Whether a formula and the byte behind it are written so.
fn is_written(
    alloc: Global,
    signature: &Signature,
    formula: Boxed<Formula>,
    close: u8,
    line: &[u8],
) -> Result<bool, AllocError> {
    let mut out = Vec::new(alloc);
    put_formula(&mut out, signature, formula.get())?;
    out.push(close)?;
    Ok(out.as_slice() == line)
}

fn formula_comes_back(
    alloc: Global,
    signature: &Signature,
    tables: &Tables<'_>,
    line: &[u8],
) -> Result<bool, AllocError> {
    let env = List::new(alloc);
    match read_formula(alloc, tables, env.as_slice(), line, 0, Closing::Line) {
        Ok(((formula, close), next)) => {
            let formula = Boxed::new(alloc, formula)?;
            let is_same = is_written(alloc, signature, formula, close, line)?;
            Ok(is_same && next == line.len())
        }
        Err(_) => Ok(false),
    }
}

// Whether a line is a formula's text: it is read, and written so.
fn comes_back(alloc: Global, line: &[u8]) -> Result<bool, AllocError> {
    let signature = signature(alloc)?;
    let tables = Boxed::new(alloc, Tables::new(alloc, &signature)?)?;
    formula_comes_back(alloc, &signature, tables.get(), line)
}

fn formula_fault(alloc: Global, tables: &Tables<'_>, line: &[u8]) -> Option<Fault> {
    read_positive(alloc, tables, line, 0, Closing::Line).err()
}

fn fault_of(alloc: Global, line: &[u8]) -> Result<Option<Fault>, AllocError> {
    let signature = signature(alloc)?;
    let tables = Boxed::new(alloc, Tables::new(alloc, &signature)?)?;
    Ok(formula_fault(alloc, tables.get(), line))
}

#[test]
fn formulas(rt: HostRuntime) -> Result<(), Fail> {
    assert!(rt; comes_back(rt.alloc(), b"(@and (p a) (@or (< 1 2) (<= 1/3 -1/2)))\n")?);
    assert!(rt; comes_back(rt.alloc(), b"(@all [int t] [[a (+ #1 1)] []] (= #0 a))\n")?);
    assert!(rt; comes_back(rt.alloc(), b"(@ex [] [[]] (@not (@iff q (@xor @t @f))))\n")?);
    assert!(rt; comes_back(rt.alloc(), b"q\n")?);
    Ok(())
}

#[test]
fn wrong_formulas(rt: HostRuntime) -> Result<(), Fail> {
    assert!(rt; fault_of(rt.alloc(), b"(@not q)\n")? == Some(Fault::At(2)));
    assert!(rt; fault_of(rt.alloc(), b"(@and q (@nod q))\n")? == Some(Fault::At(12)));
    assert!(rt; fault_of(rt.alloc(), b"(p)\n")? == Some(Fault::At(2)));
    assert!(rt; fault_of(rt.alloc(), b"(= a)\n")? == Some(Fault::At(4)));
    assert!(rt; fault_of(rt.alloc(), b"(@all [] [[] q)\n")? == Some(Fault::At(13)));
    Ok(())
}

fn literals_come_back(
    alloc: Global,
    signature: &Signature,
    tables: &Tables<'_>,
    line: &[u8],
) -> Result<bool, AllocError> {
    match read_clause(alloc, tables, line, 0) {
        Ok((clause, next)) => {
            let mut out = Vec::new(alloc);
            put_literals(&mut out, signature, clause.as_slice())?;
            Ok(next == line.len() && out.as_slice() == line)
        }
        Err(_) => Ok(false),
    }
}

// Whether literals behind `[` are a clause's text: they are read, and written so.
fn clause_comes_back(alloc: Global, line: &[u8]) -> Result<bool, AllocError> {
    let signature = signature(alloc)?;
    let tables = Boxed::new(alloc, Tables::new(alloc, &signature)?)?;
    literals_come_back(alloc, &signature, tables.get(), line)
}

fn literals_fault(alloc: Global, tables: &Tables<'_>, line: &[u8]) -> Option<Fault> {
    read_clause(alloc, tables, line, 0).err()
}

fn clause_fault(alloc: Global, line: &[u8]) -> Result<Option<Fault>, AllocError> {
    let signature = signature(alloc)?;
    let tables = Boxed::new(alloc, Tables::new(alloc, &signature)?)?;
    Ok(literals_fault(alloc, tables.get(), line))
}

#[test]
fn clauses(rt: HostRuntime) -> Result<(), Fail> {
    assert!(rt; clause_comes_back(rt.alloc(), b"]")?);
    assert!(rt; clause_comes_back(rt.alloc(), b"+q -(p a) -(< 0 -1/2)]")?);
    assert!(rt; clause_comes_back(rt.alloc(), b"+q +q -q]")?);
    assert!(rt; clause_fault(rt.alloc(), b"+q -(@not q)]")? == Some(Fault::At(6)));
    assert!(rt; clause_fault(rt.alloc(), b"+q ]")? == Some(Fault::At(3)));
    assert!(rt; clause_fault(rt.alloc(), b"+q")? == Some(Fault::At(2)));
    Ok(())
}
