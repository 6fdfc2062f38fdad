//! Proof texts over a few symbols, read and written again; where a text that is none is refused. What is expected is written by hand from the rules of the texts.
use ae_base::lists::List;
use ae_core::problems::{Kind, Nature, Signature, SymbolEntry, TypeEntry};
use ae_core::terms::Sort;
use ae_core::words::Word;
use ae_proofreader::read_proof;
use ae_prooftext::write_proof;
use ae_readers::Fault;
use std::alloc::{AllocError, Global};
use std::test::Fail;

fn word(alloc: Global, name: &str) -> Result<Word, AllocError> {
    Ok(Word::from_string(String::from_str(alloc, name)?))
}

fn element(alloc: Global) -> Sort {
    Sort::Named {
        head: 0,
        args: List::new(alloc),
    }
}

fn symbol(name: Word, args: List<Sort>, gives: Option<Sort>) -> SymbolEntry {
    SymbolEntry {
        name,
        vars: 0,
        args,
        result: gives,
        nature: Nature::Free,
    }
}

fn types(alloc: Global) -> Result<List<TypeEntry>, AllocError> {
    let mut types = List::new(alloc);
    types.push(TypeEntry {
        name: word(alloc, "t")?,
        arity: 0,
        kind: Kind::Abstract,
    })?;
    Ok(types)
}

fn one_element(alloc: Global) -> Result<List<Sort>, AllocError> {
    let mut sorts = List::new(alloc);
    sorts.push(element(alloc))?;
    Ok(sorts)
}

fn symbols(alloc: Global) -> Result<List<SymbolEntry>, AllocError> {
    let mut symbols = List::new(alloc);
    for name in ["a", "b", "c"] {
        let name = word(alloc, name)?;
        symbols.push(symbol(name, List::new(alloc), Some(element(alloc))))?;
    }
    let f = word(alloc, "f")?;
    let args = one_element(alloc)?;
    symbols.push(symbol(f, args, Some(element(alloc))))?;
    let p = word(alloc, "p")?;
    symbols.push(symbol(p, one_element(alloc)?, None))?;
    let q = word(alloc, "q")?;
    symbols.push(symbol(q, List::new(alloc), None))?;
    let x = word(alloc, "x")?;
    symbols.push(symbol(x, List::new(alloc), Some(Sort::Real)))?;
    Ok(symbols)
}

/// One type `t`, its constants `a`, `b` and `c`, a symbol `f` of `t`, a predicate `p` of `t`, a proposition `q`, and a constant `x` of `real`.
fn signature(alloc: Global) -> Result<Signature, AllocError> {
    let types = types(alloc)?;
    let symbols = symbols(alloc)?;
    Ok(Signature { types, symbols })
}

// Whether the bytes are a proof's text: it is read, and written so.
fn comes_back(alloc: Global, text: &[u8]) -> Result<bool, AllocError> {
    let signature = signature(alloc)?;
    match read_proof(alloc, &signature, text) {
        Ok(proof) => {
            let out = write_proof(alloc, &signature, &proof)?;
            Ok(out.as_slice() == text)
        }
        Err(_) => Ok(false),
    }
}

fn fault_of(alloc: Global, text: &[u8]) -> Result<Option<Fault>, AllocError> {
    let signature = signature(alloc)?;
    Ok(read_proof(alloc, &signature, text).err())
}

fn wrong_at(alloc: Global, text: &[u8], place: usize) -> Result<bool, AllocError> {
    Ok(fault_of(alloc, text)? == Some(Fault::At(place)))
}

fn wide_at(alloc: Global, text: &[u8], place: usize) -> Result<bool, AllocError> {
    Ok(fault_of(alloc, text)? == Some(Fault::WideNumber(place)))
}

/// A goal proved by its literals and one block.
const TRANSITIVE: &[u8] = b"proof 1
goal
def 4 (@or (@not (= a b)) (@or (@not (= b c)) (= a c)))
def 5 (@or (@not (= a b)) (@or (@not (= b c)) (= a c)))
def 4 (@or (@not (= b c)) (= a c))
def 5 (@or (@not (= b c)) (= a c))
block
h +(= a b)
h +(= b c)
h -(= a c)
eq a b hyp 0
eq b c hyp 1
eq a c trans 0 1
neq 2 2
rup [] 0 1 2 3 4 5
end
";

/// A line whose factor proves nothing, which is no fault of the text.
const NO_FACTOR: &[u8] = b"proof 1
goal
block
h -(= x 1/1)
eq x 1/1 lin 0
neq 0 0
rup [] 0 1
end
";

/// A proof with the place of its axiom.
const WITH_AXIOM: &[u8] = b"proof 2
axioms [0]
hyp 0 []
goal
block
h +(= a b)
h -(= b a)
eq a b hyp 0
eq b a sym 0
neq 1 1
rup [] 0 1 2
end
";

/// Each kind of clause line.
const CLAUSE_LINES: &[u8] = b"proof 2
axioms [0 3 18446744073709551615]
hyp 0 []
hyp 3 [t int]
goal
def 4 (@or (@not (= a b)) q)
inst (@all [t] [] (= #0 a)) [a (f b)]
inst (@all [] [] q) []
fresh (@ex [t] [[]] (p #0)) 7
exh a
tri 1 -2
tri 0/1 2/43
block
neq 0 0
rup [] 0
rup [+q -(p a)]
end
";

/// Each kind of derived line.
const DERIVED_LINES: &[u8] = b"proof 1
block
h +(= a b)
h -(p a)
eq a b hyp 0
eq a a refl
eq b a sym 0
eq a b trans 0 1
eq (f a) (f b) cong 0
eq a b cong
eq a b ac
eq 1/1 -3/2 lin -2 3 0 -1 2
eq 1 2 lin 0
eq a b field
eq a b fields 0 1
eq a b fields
le 1 2 hyp 0
lt 1 2 hyp 1
le 1 2 sum 3 1 0 -2 1
le 1 2 sum 1
le 1 2 round 4
lt 1 2 sum 1 -170141183460469231731687303715884105727 0
pred 0 1 2 3
end
";

/// Each ending.
const ENDINGS: &[u8] = b"proof 1
block
neq 1 2
block
const 3
block
clash 4
block
pred 5 6
block
pred 5 6 7 8
block
zero 9
block
gcd 10
end
";

#[test]
fn proofs_come_back(rt: HostRuntime) -> Result<(), Fail> {
    assert!(rt; comes_back(rt.alloc(), TRANSITIVE)?);
    assert!(rt; comes_back(rt.alloc(), NO_FACTOR)?);
    assert!(rt; comes_back(rt.alloc(), WITH_AXIOM)?);
    assert!(rt; comes_back(rt.alloc(), b"proof 1\nend\n")?);
    assert!(rt; comes_back(rt.alloc(), b"proof 2\naxioms []\nend\n")?);
    Ok(())
}

#[test]
fn each_line_comes_back(rt: HostRuntime) -> Result<(), Fail> {
    assert!(rt; comes_back(rt.alloc(), CLAUSE_LINES)?);
    assert!(rt; comes_back(rt.alloc(), DERIVED_LINES)?);
    assert!(rt; comes_back(rt.alloc(), ENDINGS)?);
    Ok(())
}

#[test]
fn wrong_versions(rt: HostRuntime) -> Result<(), Fail> {
    assert!(rt; wrong_at(rt.alloc(), b"", 0)?);
    assert!(rt; wrong_at(rt.alloc(), b"proof 3\nend\n", 6)?);
    assert!(rt; wrong_at(rt.alloc(), b"proof 1\nend", 11)?);
    assert!(rt; wrong_at(rt.alloc(), b"proof 1\nend\nx", 12)?);
    assert!(rt; wrong_at(rt.alloc(), b"proof 2\nend\n", 8)?);
    assert!(rt; wrong_at(rt.alloc(), b"proof 2\naxioms [0] \nend\n", 18)?);
    Ok(())
}

#[test]
fn wrong_axioms(rt: HostRuntime) -> Result<(), Fail> {
    assert!(rt; wrong_at(rt.alloc(), b"proof 2\naxioms [x", 16)?);
    assert!(rt; wrong_at(rt.alloc(), b"proof 2\naxioms [0", 17)?);
    assert!(rt; wrong_at(rt.alloc(), b"proof 2\naxioms [3 3]\nend\n", 19)?);
    assert!(rt; wrong_at(rt.alloc(), b"proof 2\naxioms [1 0]\nend\n", 18)?);
    assert!(rt; wrong_at(rt.alloc(), b"proof 2\naxioms [18446744073709551615 ", 36)?);
    assert!(rt; wrong_at(rt.alloc(), b"proof 2\naxioms [18446744073709551616]", 35)?);
    assert!(rt;
        wide_at(
            rt.alloc(),
            b"proof 2\naxioms [170141183460469231731687303715884105728]",
            16
        )?
    );
    Ok(())
}

#[test]
fn wrong_lines(rt: HostRuntime) -> Result<(), Fail> {
    assert!(rt; wrong_at(rt.alloc(), b"proof 1\nends", 11)?);
    assert!(rt; wrong_at(rt.alloc(), b"proof 1\n\nend\n", 8)?);
    assert!(rt; wrong_at(rt.alloc(), b"proof 1\ngoal \n", 12)?);
    assert!(rt; wrong_at(rt.alloc(), b"proof 1\ndef 01 q\n", 13)?);
    assert!(rt; wrong_at(rt.alloc(), b"proof 1\nhyp 18446744073709551616 []\n", 31)?);
    assert!(rt;
        wide_at(
            rt.alloc(),
            b"proof 1\nfresh (= a b) 170141183460469231731687303715884105728\n",
            22
        )?
    );
    assert!(rt; wrong_at(rt.alloc(), b"proof 1\nrup [+q-q] 0\n", 15)?);
    assert!(rt; wrong_at(rt.alloc(), b"proof 1\nrup []0\n", 14)?);
    assert!(rt; wrong_at(rt.alloc(), b"proof 1\ntri 2/4 1/1\n", 15)?);
    assert!(rt; wrong_at(rt.alloc(), b"proof 1\ntri 0/2 1/1\n", 14)?);
    assert!(rt; wrong_at(rt.alloc(), b"proof 1\nexh a \n", 13)?);
    Ok(())
}

#[test]
fn wrong_blocks(rt: HostRuntime) -> Result<(), Fail> {
    assert!(rt; wrong_at(rt.alloc(), b"proof 1\nblock\nend\n", 15)?);
    assert!(rt; wrong_at(rt.alloc(), b"proof 1\nblock\neq a b hyp 0\nh +q\n", 27)?);
    assert!(rt; wrong_at(rt.alloc(), b"proof 1\nblock\neq a b round 0\n", 22)?);
    assert!(rt; wrong_at(rt.alloc(), b"proof 1\nblock\nle 1 2 refl\n", 22)?);
    assert!(rt; wrong_at(rt.alloc(), b"proof 1\nblock\nlt 1 2 round 0\n", 21)?);
    assert!(rt; wrong_at(rt.alloc(), b"proof 1\nblock\neq 1 2 lin -0\n", 26)?);
    assert!(rt; wrong_at(rt.alloc(), b"proof 1\nblock\neq 1 2 lin 1 1\n", 28)?);
    assert!(rt;
        wide_at(
            rt.alloc(),
            b"proof 1\nblock\neq 1 2 lin 170141183460469231731687303715884105728\n",
            25
        )?
    );
    assert!(rt;
        wide_at(
            rt.alloc(),
            b"proof 1\nblock\neq 1 2 lin 1 -170141183460469231731687303715884105728 0\n",
            27
        )?
    );
    assert!(rt; wrong_at(rt.alloc(), b"proof 1\nblock\nneq 0\n", 19)?);
    assert!(rt; wrong_at(rt.alloc(), b"proof 1\nblock\nzero 0 1\n", 20)?);
    assert!(rt; wrong_at(rt.alloc(), b"proof 1\nblock\neq a b  hyp 0\n", 21)?);
    Ok(())
}
