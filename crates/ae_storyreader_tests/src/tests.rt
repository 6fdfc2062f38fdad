//! Journals and widths over a few symbols, read and written again; where a text that is none is refused. What is expected is written by hand from the rules of the texts.
use ae_base::lists::List;
use ae_core::problems::{Kind, Nature, Signature, SymbolEntry, TypeEntry};
use ae_core::terms::Sort;
use ae_core::words::Word;
use ae_readers::Fault;
use ae_statetext::{write_number, write_story};
use ae_storyreader::{read_number, read_story};
use std::alloc::{AllocError, Global};
use std::test::Fail;

/// The constants of the type `t`.
const ELEMENTS: [&str; 5] = ["a", "b", "c", "d", "e"];
/// The constants of `real`.
const NUMBERS: [&str; 4] = ["x", "y", "z", "w"];

fn word(alloc: Global, name: &str) -> Result<Word, AllocError> {
    Ok(Word::from_string(String::from_str(alloc, name)?))
}

fn element(alloc: Global) -> Sort {
    Sort::Named {
        head: 0,
        args: List::new(alloc),
    }
}

fn constant(alloc: Global, name: Word, sort: Sort) -> SymbolEntry {
    SymbolEntry {
        name,
        vars: 0,
        args: List::new(alloc),
        result: Some(sort),
        nature: Nature::Free,
    }
}

// A symbol of two elements that is associative and commutative.
fn joining(alloc: Global) -> Result<SymbolEntry, AllocError> {
    let mut args = List::new(alloc);
    for _ in 0..2 {
        args.push(element(alloc))?;
    }
    let name = word(alloc, "u")?;
    Ok(SymbolEntry {
        name,
        vars: 0,
        args,
        result: Some(element(alloc)),
        nature: Nature::Ac,
    })
}

fn types(alloc: Global) -> Result<List<TypeEntry>, AllocError> {
    let mut types = List::new(alloc);
    types.push(TypeEntry {
        name: word(alloc, "t")?,
        arity: 0,
        kind: Kind::Abstract,
    })?;
    Ok(types)
}

fn symbols(alloc: Global) -> Result<List<SymbolEntry>, AllocError> {
    let mut symbols = List::new(alloc);
    for name in ELEMENTS {
        let name = word(alloc, name)?;
        symbols.push(constant(alloc, name, element(alloc)))?;
    }
    for name in NUMBERS {
        let name = word(alloc, name)?;
        symbols.push(constant(alloc, name, Sort::Real))?;
    }
    symbols.push(joining(alloc)?)?;
    Ok(symbols)
}

/// The type `t` with its constants, the constants of `real`, and `u`, which is associative and commutative.
fn signature(alloc: Global) -> Result<Signature, AllocError> {
    let types = types(alloc)?;
    let symbols = symbols(alloc)?;
    Ok(Signature { types, symbols })
}

// Whether the bytes are a journal's text: it is read, and written so.
fn story_comes_back(alloc: Global, signature: &Signature, text: &[u8]) -> Result<bool, AllocError> {
    match read_story(alloc, signature, text) {
        Ok(story) => Ok(write_story(alloc, signature, &story)?.as_slice() == text),
        Err(_) => Ok(false),
    }
}

// Whether the bytes are the text of a width with its journal.
fn width_comes_back(alloc: Global, signature: &Signature, text: &[u8]) -> Result<bool, AllocError> {
    match read_number(alloc, signature, text) {
        Ok(found) => {
            let again = write_number(alloc, signature, &found.story, &found.at)?;
            Ok(again.as_slice() == text)
        }
        Err(_) => Ok(false),
    }
}

fn story_fails(alloc: Global, signature: &Signature, text: &[u8], fault: Fault) -> bool {
    read_story(alloc, signature, text).err() == Some(fault)
}

fn width_fails(alloc: Global, signature: &Signature, text: &[u8], fault: Fault) -> bool {
    read_number(alloc, signature, text).err() == Some(fault)
}

/// Each kind of line.
const LINES: &[u8] = b"journal 1
name 0 a
name 1 b
name 2 x
decide +(= a b)
solve 0 1
solve 2 (lin 2 1 3 2)
solve 1 (: 0 1)
rule u [0 1] [2]
rule *real [2 2] []
drop solve 0 1
drop rule u [0 1] [2]
pair u [0] [1]
learn [+(= a b) -(= b a)]
learn []
instance type 3 [t real]
instance term (@all [t] [[]] (= #0 #0)) [a b]
instance term (@all [] [] (= a b)) []
combine ge (lin 1 0 1 0)
combine gt (lin 2 1 3 0)
back 1
end
";

/// The names and the first line noted for the goal `u(a, b) = c -> u(a, d) = e -> u(c, d) = u(e, b)`.
const ONE_STEP: &[u8] = b"journal 1
name 0 a
name 1 b
name 2 (u a b)
name 3 c
name 4 d
name 5 (u a d)
name 6 e
name 7 (u c d)
name 8 (u e b)
rule u [0 1] [2]
end
";

/// With K for 2 to the power 100, what comes of `x = K * y -> y = K * z -> z = K * w -> x = w`: once `y` is `x / K`, its difference with `K * z` takes the product of K and -K.
const OUT_OF_RANGE: &[u8] =
    b"wide plus mul -1267650600228229401496703205376 1267650600228229401496703205376
left (lin 1267650600228229401496703205376 0 1 0)
right (lin 1 0 -1267650600228229401496703205376 4)
journal 1
name 0 x
name 1 1267650600228229401496703205376/1
name 2 y
name 3 (* 1267650600228229401496703205376/1 y)
name 4 z
name 5 (* 1267650600228229401496703205376/1 z)
name 6 w
name 7 (* 1267650600228229401496703205376/1 w)
solve 2 (lin 1267650600228229401496703205376 0 1 0)
end
";

const JOURNALS: [&[u8]; 3] = [LINES, ONE_STEP, b"journal 1\nend\n"];

/// Each kind of step, and both operations.
const WIDTHS: [&[u8]; 5] = [
    OUT_OF_RANGE,
    b"wide plus add 1 -2\nleft (lin 1 0)\nright (lin 1 0)\njournal 1\nend\n",
    b"wide scale mul 3 4\nleft (lin 1 0)\nright (lin 1 3)\njournal 1\nend\n",
    b"wide subst add 3 4\nleft (lin 2 1 3 0)\nkey 1\nright (lin 1 3)\njournal 1\nend\n",
    b"wide combine mul 0 4\nleft (lin 1 0)\nkey 0\nright (lin 1 3)\njournal 1\nback 1\nend\n",
];

const NO_JOURNALS: [(&[u8], usize); 15] = [
    (b"journal 2\nend\n", 8),
    (b"state 1\nend\n", 0),
    (b"journal 1\nname 1 a\nend\n", 15),
    (b"journal 1\nback 1\nname 0 a\nend\n", 17),
    (b"journal 1\ndrop pair u [0] [1]\nend\n", 15),
    (b"journal 1\ninstance sort 0 [t]\nend\n", 19),
    (b"journal 1\ncombine ga (lin 1 0)\nend\n", 19),
    (b"journal 1\ncombine ge (lin 2 2 2 0)\nend\n", 33),
    (b"journal 1\npair u [1 0] []\nend\n", 20),
    (b"journal 1\nlearn []end\n", 18),
    (b"journal 1\nback 01\nend\n", 16),
    (b"journal 1\nback -0\nend\n", 15),
    (b"journal 1\nback 18446744073709551616\nend\n", 34),
    (b"journal 1\nend", 13),
    (b"journal 1\nend\n\n", 14),
];

const NO_WIDTHS: [(&[u8], usize); 7] = [
    (b"journal 1\nend\n", 0),
    (b"wide times", 5),
    (b"wide plus div 1 2\n", 10),
    (b"wide plus mul -0 2\n", 15),
    (b"wide plus add 1 -2\nleft (lin 1 0)\nkey 1\n", 34),
    (b"wide subst add 1 2\nleft (lin 1 0)\nright (lin 1 0)\n", 34),
    (b"wide plus add 1 2\nleft (lin 1 0)\nright (lin 1 0)\n", 49),
];

#[test]
fn journals(rt: HostRuntime) -> Result<(), Fail> {
    let signature = signature(rt.alloc())?;
    for text in JOURNALS {
        assert!(rt; story_comes_back(rt.alloc(), &signature, text)?);
    }
    Ok(())
}

#[test]
fn widths(rt: HostRuntime) -> Result<(), Fail> {
    let signature = signature(rt.alloc())?;
    for text in WIDTHS {
        assert!(rt; width_comes_back(rt.alloc(), &signature, text)?);
    }
    Ok(())
}

#[test]
fn no_journals(rt: HostRuntime) -> Result<(), Fail> {
    let signature = signature(rt.alloc())?;
    for (text, place) in NO_JOURNALS {
        assert!(rt; story_fails(rt.alloc(), &signature, text, Fault::At(place)));
    }
    Ok(())
}

#[test]
fn no_widths(rt: HostRuntime) -> Result<(), Fail> {
    let signature = signature(rt.alloc())?;
    for (text, place) in NO_WIDTHS {
        assert!(rt; width_fails(rt.alloc(), &signature, text, Fault::At(place)));
    }
    Ok(())
}

#[test]
fn wide_numerals(rt: HostRuntime) -> Result<(), Fail> {
    let signature = signature(rt.alloc())?;
    let level = b"journal 1\nback 170141183460469231731687303715884105728\nend\n";
    assert!(rt; story_fails(rt.alloc(), &signature, level, Fault::WideNumber(15)));
    let factor = b"wide plus mul 2 -170141183460469231731687303715884105729\n";
    assert!(rt; width_fails(rt.alloc(), &signature, factor, Fault::WideNumber(16)));
    Ok(())
}
