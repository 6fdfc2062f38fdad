//! Terms over two types and a few symbols, read and written again; what no term's text goes on to. What is expected is written by hand from the rules of the texts.
use ae_base::lists::List;
use ae_core::problems::{FieldEntry, Kind, Nature, Signature, SymbolEntry, TypeEntry};
use ae_core::terms::Sort;
use ae_core::words::Word;
use ae_prooftext::put_term;
use ae_readers::{Closing, Fault};
use ae_termreader::{Tables, read_term};
use std::alloc::{AllocError, Global};
use std::test::Fail;

fn word(alloc: Global, name: &str) -> Result<Word, AllocError> {
    Ok(Word::from_string(String::from_str(alloc, name)?))
}

fn abstract_type(alloc: Global, name: &str, arity: usize) -> Result<TypeEntry, AllocError> {
    Ok(TypeEntry {
        name: word(alloc, name)?,
        arity,
        kind: Kind::Abstract,
    })
}

/// The record type `r`, with one field `y`.
fn record_type(alloc: Global) -> Result<TypeEntry, AllocError> {
    let mut fields = List::new(alloc);
    fields.push(FieldEntry {
        name: word(alloc, "y")?,
        sort: element(alloc),
    })?;
    Ok(TypeEntry {
        name: word(alloc, "r")?,
        arity: 0,
        kind: Kind::Fields(fields),
    })
}

fn symbol(
    alloc: Global,
    name: &str,
    vars: usize,
    args: List<Sort>,
    gives: Sort,
) -> Result<SymbolEntry, AllocError> {
    Ok(SymbolEntry {
        name: word(alloc, name)?,
        vars,
        args,
        result: Some(gives),
        nature: Nature::Free,
    })
}

fn element(alloc: Global) -> Sort {
    Sort::Named {
        head: 0,
        args: List::new(alloc),
    }
}

/// The types `t` and `list` and the record type `r`; `a`, `ab` and `f` over `t`, `x` of sort `real`, and `nil`, which has a type variable.
fn signature(alloc: Global) -> Result<Signature, AllocError> {
    let mut types = List::new(alloc);
    types.push(abstract_type(alloc, "t", 0)?)?;
    types.push(abstract_type(alloc, "list", 1)?)?;
    types.push(record_type(alloc)?)?;
    let mut one = List::new(alloc);
    one.push(element(alloc))?;
    let mut variable = List::new(alloc);
    variable.push(Sort::Var(0))?;
    let lists = Sort::Named {
        head: 1,
        args: variable,
    };
    let mut symbols = List::new(alloc);
    symbols.push(symbol(alloc, "a", 0, List::new(alloc), element(alloc))?)?;
    symbols.push(symbol(alloc, "ab", 0, List::new(alloc), element(alloc))?)?;
    symbols.push(symbol(alloc, "f", 0, one, element(alloc))?)?;
    symbols.push(symbol(alloc, "x", 0, List::new(alloc), Sort::Real)?)?;
    symbols.push(symbol(alloc, "nil", 1, List::new(alloc), lists)?)?;
    Ok(Signature { types, symbols })
}

// Whether a line is a term's text: it is read, and written so.
fn comes_back(alloc: Global, line: &[u8]) -> Result<bool, AllocError> {
    let signature = signature(alloc)?;
    let tables = Tables::new(alloc, &signature)?;
    let env = List::new(alloc);
    match read_term(alloc, &tables, env.as_slice(), line, 0, Closing::Line) {
        Ok(((term, close), next)) => {
            let mut out = Vec::new(alloc);
            put_term(&mut out, &signature, &term)?;
            out.push(close)?;
            Ok(next == line.len() && out.as_slice() == line)
        }
        Err(_) => Ok(false),
    }
}

fn fault_of(alloc: Global, line: &[u8]) -> Result<Option<Fault>, AllocError> {
    let signature = signature(alloc)?;
    let tables = Tables::new(alloc, &signature)?;
    let env = List::new(alloc);
    match read_term(alloc, &tables, env.as_slice(), line, 0, Closing::Line) {
        Ok(_) => Ok(None),
        Err(fault) => Ok(Some(fault)),
    }
}

#[test]
fn terms(rt: HostRuntime) -> Result<(), Fail> {
    assert!(rt; comes_back(rt.alloc(), b"(f (f ab))\n")?);
    assert!(rt; comes_back(rt.alloc(), b"(nil [t])\n")?);
    assert!(rt; comes_back(rt.alloc(), b"(! 7 (list (list t)))\n")?);
    assert!(rt; comes_back(rt.alloc(), b"(+ #0 (~ 2))\n")?);
    assert!(rt; comes_back(rt.alloc(), b"(* (+ x 0/1) 2/43)\n")?);
    assert!(rt; comes_back(rt.alloc(), b"-3/2\n")?);
    assert!(rt; comes_back(rt.alloc(), b"true\n")?);
    Ok(())
}

// a text says what it says, whether the sorts fit or not
#[test]
fn ill_sorted_terms(rt: HostRuntime) -> Result<(), Fail> {
    assert!(rt; comes_back(rt.alloc(), b"(f a ab)\n")?);
    assert!(rt; comes_back(rt.alloc(), b"f\n")?);
    assert!(rt; comes_back(rt.alloc(), b"(+ a)\n")?);
    assert!(rt; comes_back(rt.alloc(), b"(! 0 (list t '7))\n")?);
    assert!(rt; comes_back(rt.alloc(), b"(.y (:r a x))\n")?);
    Ok(())
}

#[test]
fn wrong_heads(rt: HostRuntime) -> Result<(), Fail> {
    assert!(rt; fault_of(rt.alloc(), b"(+)\n")? == Some(Fault::At(2)));
    assert!(rt; fault_of(rt.alloc(), b"(:r)\n")? == Some(Fault::At(3)));
    assert!(rt; fault_of(rt.alloc(), b"(:t a)\n")? == Some(Fault::At(2)));
    assert!(rt; fault_of(rt.alloc(), b"(.x a)\n")? == Some(Fault::At(2)));
    Ok(())
}

#[test]
fn wrong_terms(rt: HostRuntime) -> Result<(), Fail> {
    assert!(rt; fault_of(rt.alloc(), b"(f)\n")? == Some(Fault::At(2)));
    assert!(rt; fault_of(rt.alloc(), b"(a)\n")? == Some(Fault::At(2)));
    assert!(rt; fault_of(rt.alloc(), b"abc\n")? == Some(Fault::At(2)));
    assert!(rt; fault_of(rt.alloc(), b"(f a\n")? == Some(Fault::At(4)));
    assert!(rt; fault_of(rt.alloc(), b"(nil [])")? == Some(Fault::At(8)));
    assert!(rt; fault_of(rt.alloc(), b"(nil t)\n")? == Some(Fault::At(5)));
    Ok(())
}

#[test]
fn wrong_numerals(rt: HostRuntime) -> Result<(), Fail> {
    assert!(rt; fault_of(rt.alloc(), b"2/4\n")? == Some(Fault::At(3)));
    assert!(rt; fault_of(rt.alloc(), b"0/2\n")? == Some(Fault::At(2)));
    assert!(rt; fault_of(rt.alloc(), b"-0\n")? == Some(Fault::At(1)));
    assert!(rt; fault_of(rt.alloc(), b"007\n")? == Some(Fault::At(1)));
    assert!(rt;
        fault_of(rt.alloc(), b"(f 999999999999999999999999999999999999999)\n")?
            == Some(Fault::WideNumber(3))
    );
    assert!(rt;
        fault_of(
            rt.alloc(),
            b"(f 1/999999999999999999999999999999999999999)\n"
        )? == Some(Fault::WideNumber(3))
    );
    Ok(())
}
