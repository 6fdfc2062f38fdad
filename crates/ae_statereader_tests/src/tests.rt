//! States over a few symbols, read and written again; what no state's text goes on to. What is expected is written by hand from the rules of the texts.
use ae_base::lists::List;
use ae_core::problems::{Kind, Nature, Signature, SymbolEntry, TypeEntry};
use ae_core::terms::Sort;
use ae_core::words::Word;
use ae_readers::Fault;
use ae_statereader::read_state;
use ae_statetext::write_state;
use std::alloc::{AllocError, Global};
use std::test::Fail;

fn word(alloc: Global, name: &str) -> Result<Word, AllocError> {
    Ok(Word::from_string(String::from_str(alloc, name)?))
}

fn element(alloc: Global) -> Sort {
    Sort::Named {
        head: 0,
        args: List::new(alloc),
    }
}

fn constant(alloc: Global, name: &str, sort: Sort) -> Result<SymbolEntry, AllocError> {
    Ok(SymbolEntry {
        name: word(alloc, name)?,
        vars: 0,
        args: List::new(alloc),
        result: Some(sort),
        nature: Nature::Free,
    })
}

/// The type `t`; its constants `a`, `b` and `c`, the constant `x` of `real`, and `u`, which is associative and commutative.
fn signature(alloc: Global) -> Result<Signature, AllocError> {
    let mut types = List::new(alloc);
    types.push(TypeEntry {
        name: word(alloc, "t")?,
        arity: 0,
        kind: Kind::Abstract,
    })?;
    let mut symbols = List::new(alloc);
    symbols.push(constant(alloc, "a", element(alloc))?)?;
    symbols.push(constant(alloc, "b", element(alloc))?)?;
    symbols.push(constant(alloc, "c", element(alloc))?)?;
    symbols.push(constant(alloc, "x", Sort::Real)?)?;
    let mut args = List::new(alloc);
    args.push(element(alloc))?;
    args.push(element(alloc))?;
    symbols.push(SymbolEntry {
        name: word(alloc, "u")?,
        vars: 0,
        args,
        result: Some(element(alloc)),
        nature: Nature::Ac,
    })?;
    Ok(Signature { types, symbols })
}

// Whether a text is a state's: it is read, and written so.
fn state_comes_back(alloc: Global, text: &[u8]) -> Result<bool, AllocError> {
    let signature = signature(alloc)?;
    match read_state(alloc, &signature, text) {
        Ok(state) => Ok(write_state(alloc, &signature, &state)?.as_slice() == text),
        Err(_) => Ok(false),
    }
}

fn state_fault(alloc: Global, text: &[u8]) -> Result<Option<Fault>, AllocError> {
    let signature = signature(alloc)?;
    match read_state(alloc, &signature, text) {
        Ok(_) => Ok(None),
        Err(fault) => Ok(Some(fault)),
    }
}

#[test]
fn states(rt: HostRuntime) -> Result<(), Fail> {
    let alloc = rt.alloc();
    let open =
        b"state 1\nlit -(@or (@not (= a b)) (= a c))\nlit +(= a b)\nlit -(= a c)\nname 0 a\nname 1 b\nname 2 c\nvalue 0 0\nvalue 1 0\nvalue 2 2\nend\n";
    assert!(rt; state_comes_back(alloc, open)?);
    assert!(rt; state_comes_back(alloc, b"state 1\nend\n")?);
    let full =
        b"state 1\nname 0 x\nname 1 a\nvalue 0 (lin 2 1 3 0)\nvalue 1 (: 0 1)\nrule u [0 0 1] []\nrule *int [1] [0 1]\npoint 0 -3/2\npoint 7 0/1\nend\n";
    assert!(rt; state_comes_back(alloc, full)?);
    assert!(rt; state_comes_back(alloc, b"state 1\nname 0 a\nvalue 0 0\nvalue 1 (:)\nend\n")?);
    Ok(())
}

#[test]
fn no_states(rt: HostRuntime) -> Result<(), Fail> {
    let alloc = rt.alloc();
    assert!(rt; state_fault(alloc, b"state 1\nname 1 a\nend\n")? == Some(Fault::At(13)));
    assert!(rt; state_fault(alloc, b"state 1\nvalue 0 0\nname 0 a\nend\n")? == Some(Fault::At(18)));
    assert!(rt; state_fault(alloc, b"state 1\nrule u [1 0] []\nend\n")? == Some(Fault::At(18)));
    assert!(rt; state_fault(alloc, b"state 1\nrule a [0] []\nend\n")? == Some(Fault::At(13)));
    assert!(rt; state_fault(alloc, b"state 1\npoint 0 2/4\nend\n")? == Some(Fault::At(19)));
    assert!(rt; state_fault(alloc, b"state 1\npoint 0 2/43\nend\n")? == None);
    assert!(rt; state_fault(alloc, b"state 1\npoint 0 5\nend\n")? == Some(Fault::At(17)));
    assert!(rt; state_fault(alloc, b"state 1\npoint 0 -0/1\nend\n")? == Some(Fault::At(17)));
    let wide = b"state 1\npoint 0 1/170141183460469231731687303715884105728\nend\n";
    assert!(rt; state_fault(alloc, wide)? == Some(Fault::WideNumber(16)));
    assert!(rt; state_fault(alloc, b"state 1\nend")? == Some(Fault::At(11)));
    assert!(rt; state_fault(alloc, b"state 1\nend\n\n")? == Some(Fault::At(12)));
    assert!(rt; state_fault(alloc, b"journal 1\nend\n")? == Some(Fault::At(0)));
    Ok(())
}
