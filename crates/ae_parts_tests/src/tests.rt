//! Outputs over a few symbols, read in parts; where a text that is none is refused. What is expected is written by hand from the rules of the texts.
use ae_base::lists::List;
use ae_core::problems::{Kind, Nature, Signature, SymbolEntry, TypeEntry};
use ae_core::terms::Sort;
use ae_core::words::Word;
use ae_parts::{Part, read_parts};
use ae_readers::Fault;
use std::alloc::{AllocError, Global};
use std::test::Fail;

/// What a part says.
#[derive(Clone, Copy, PartialEq, Eq)]
enum Said {
    /// A proof, of version 1 or of version 2.
    First,
    Second,
    Unknown,
    Steps(usize),
    Number,
}

fn word(alloc: Global, name: &str) -> Result<Word, AllocError> {
    Ok(Word::from_string(String::from_str(alloc, name)?))
}

fn constant(alloc: Global, name: &str, sort: Sort) -> Result<SymbolEntry, AllocError> {
    Ok(SymbolEntry {
        name: word(alloc, name)?,
        vars: 0,
        args: List::new(alloc),
        result: Some(sort),
        nature: Nature::Free,
    })
}

fn symbols(alloc: Global) -> Result<List<SymbolEntry>, AllocError> {
    let mut symbols = List::new(alloc);
    for name in ["a", "b", "c"] {
        let element = Sort::Named {
            head: 0,
            args: List::new(alloc),
        };
        symbols.push(constant(alloc, name, element)?)?;
    }
    symbols.push(constant(alloc, "x", Sort::Real)?)?;
    Ok(symbols)
}

/// The type `t` with its constants `a`, `b` and `c`, and a constant `x` of `real`.
fn signature(alloc: Global) -> Result<Signature, AllocError> {
    let mut types = List::new(alloc);
    types.push(TypeEntry {
        name: word(alloc, "t")?,
        arity: 0,
        kind: Kind::Abstract,
    })?;
    Ok(Signature {
        types,
        symbols: symbols(alloc)?,
    })
}

fn words(alloc: Global, names: &[&str]) -> Result<List<Word>, AllocError> {
    let mut out = List::new(alloc);
    for name in names {
        out.push(word(alloc, name)?)?;
    }
    Ok(out)
}

fn told(part: &Part) -> Said {
    match part {
        Part::Valid(proof) => match &proof.axioms {
            None => Said::First,
            Some(_) => Said::Second,
        },
        Part::Unknown(_) => Said::Unknown,
        Part::Steps { limit, .. } => Said::Steps(*limit),
        Part::Number { .. } => Said::Number,
    }
}

// Whether a text has these parts.
fn has_parts(
    alloc: Global,
    names: &[&str],
    text: &[u8],
    wanted: &[Said],
) -> Result<bool, AllocError> {
    let signature = signature(alloc)?;
    let names = words(alloc, names)?;
    match read_parts(alloc, &signature, names.as_slice(), text) {
        Ok(parts) => {
            let mut found = List::new(alloc);
            for part in parts.as_slice() {
                found.push(told(part))?;
            }
            Ok(found.as_slice() == wanted)
        }
        Err(_) => Ok(false),
    }
}

fn fault_of(alloc: Global, names: &[&str], text: &[u8]) -> Result<Option<Fault>, AllocError> {
    let signature = signature(alloc)?;
    let names = words(alloc, names)?;
    match read_parts(alloc, &signature, names.as_slice(), text) {
        Ok(_) => Ok(None),
        Err(fault) => Ok(Some(fault)),
    }
}

/// A proof of `a = b -> b = c -> a = c` with the two sides of a step exchanged: a text all the same.
const EXCHANGED: &[u8] = b"goal g Valid
proof 1
goal
def 4 (@or (@not (= a b)) (@or (@not (= b c)) (= a c)))
def 5 (@or (@not (= a b)) (@or (@not (= b c)) (= a c)))
def 4 (@or (@not (= b c)) (= a c))
def 5 (@or (@not (= b c)) (= a c))
block
h +(= a b)
h +(= b c)
h -(= a c)
eq a b hyp 0
eq b c hyp 1
eq a c trans 1 0
neq 2 2
rup [] 0 1 2 3 4 5
end
";

/// A state for `a = b -> a = c`.
const STATE: &[u8] = b"goal g I don't know
state 1
lit -(@or (@not (= a b)) (= a c))
lit +(= a b)
lit -(= a c)
name 0 a
name 1 b
name 2 c
value 0 0
value 1 0
value 2 2
end
";

/// A proof of `x = 1.0` with a factor 0.
const FACTOR: &[u8] = b"goal g Valid
proof 1
goal
block
h -(= x 1/1)
eq x 1/1 lin 0
neq 0 0
rup [] 0 1
end
";

/// Each kind of part, for goals of which two have one name.
const EACH: &[u8] = b"goal g Valid
proof 2
axioms [0 2]
goal
end
goal gg Limit steps 1000000
journal 1
back 1
end
goal g Limit number
wide plus add 1 -2
left (lin 1 0)
right (lin 1 0)
journal 1
end
goal h I don't know
state 1
end
";

const OUTPUTS: [(&[&str], &[u8], &[Said]); 5] = [
    (&["g"], EXCHANGED, &[Said::First]),
    (&["g"], STATE, &[Said::Unknown]),
    (&["g"], FACTOR, &[Said::First]),
    (
        &["g", "gg", "g", "h"],
        EACH,
        &[
            Said::Second,
            Said::Steps(1000000),
            Said::Number,
            Said::Unknown,
        ],
    ),
    (&[], b"", &[]),
];

const NO_OUTPUTS: [(&[&str], &[u8], usize); 12] = [
    (&["g"], b"", 0),
    (&[], b"goal g Valid\nproof 1\nend\n", 0),
    (&["gg", "g"], EACH, 6),
    (
        &["g", "g"],
        b"goal g Valid\nproof 1\nend\ngoal h Valid\nproof 1\nend\n",
        30,
    ),
    (&["g"], b"goal gg Valid\nproof 1\nend\n", 6),
    (&["g"], b"goal g Valid\nproof 1\nend\n\n", 25),
    (&["g"], b"goal g Valid\nproof 1\nend", 24),
    (&["g"], b"goal g Valid\nstate 1\nend\n", 13),
    (&["g"], b"goal g Limit none\n", 14),
    (&["g"], b"goal g Limit steps 0\njournal 1\nend\n", 19),
    (&["g"], b"goal g Limit steps 1000001\njournal 1\nend\n", 25),
    (
        &["g"],
        b"goal h Limit steps 170141183460469231731687303715884105728\n",
        5,
    ),
];

#[test]
fn outputs(rt: HostRuntime) -> Result<(), Fail> {
    for (names, text, wanted) in OUTPUTS {
        assert!(rt; has_parts(rt.alloc(), names, text, wanted)?);
    }
    Ok(())
}

#[test]
fn no_outputs(rt: HostRuntime) -> Result<(), Fail> {
    for (names, text, place) in NO_OUTPUTS {
        assert!(rt; fault_of(rt.alloc(), names, text)? == Some(Fault::At(place)));
    }
    let wide = b"goal g Limit steps 170141183460469231731687303715884105728\n";
    assert!(rt; fault_of(rt.alloc(), &["g"], wide)? == Some(Fault::WideNumber(19)));
    Ok(())
}
