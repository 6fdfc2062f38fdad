//! Proof texts of small proofs over one type and one constant. What is expected is written by hand from the rules of the texts.
use ae_core::formulas::{Formula, Lit, Quant};
use ae_core::lists::{Boxed, List};
use ae_core::problems::{Kind, Nature, Signature, SymbolEntry, TypeEntry};
use ae_core::proofs::{Block, ClauseLine, Deriv, Ending, EqLine, Proof};
use ae_core::terms::{Head, Op, Sort, Term};
use ae_core::words::Word;
use ae_prooftext::{ProofText, write_proof};
use std::alloc::{AllocError, Global};
use std::test::Fail;

fn word(alloc: Global, name: &str) -> Result<Word, AllocError> {
    Ok(Word::from_string(String::from_str(alloc, name)?))
}

/// One type `t`, and its constant `a`.
fn signature(alloc: Global) -> Result<Signature, AllocError> {
    let mut types = List::new(alloc);
    types.push(TypeEntry {
        name: word(alloc, "t")?,
        arity: 0,
        kind: Kind::Abstract,
    })?;
    let mut symbols = List::new(alloc);
    symbols.push(SymbolEntry {
        name: word(alloc, "a")?,
        vars: 0,
        args: List::new(alloc),
        result: Some(Sort::Named {
            head: 0,
            args: List::new(alloc),
        }),
        nature: Nature::Free,
    })?;
    Ok(Signature { types, symbols })
}

fn constant(alloc: Global) -> Term {
    Term::Apply {
        head: Head::Symbol(0),
        sorts: List::new(alloc),
        args: List::new(alloc),
    }
}

/// The block that refutes `a = a` false.
fn block(alloc: Global) -> Result<Block, AllocError> {
    let mut hyps = List::new(alloc);
    hyps.push(Lit {
        positive: false,
        formula: Formula::Eq {
            left: constant(alloc),
            right: constant(alloc),
        },
    })?;
    let mut lines = List::new(alloc);
    lines.push(EqLine::EqRefl {
        left: constant(alloc),
        right: constant(alloc),
    })?;
    Ok(Block {
        deriv: Deriv { hyps, lines },
        ending: Ending::Neq { line: 0, hyp: 0 },
    })
}

fn itself(alloc: Global) -> Result<Proof, AllocError> {
    let mut lines = List::new(alloc);
    lines.push(ClauseLine::Goal)?;
    lines.push(ClauseLine::Block(block(alloc)?))?;
    let mut hints = List::new(alloc);
    hints.push(1)?;
    hints.push(0)?;
    lines.push(ClauseLine::Rup {
        clause: List::new(alloc),
        hints,
    })?;
    Ok(Proof { lines })
}

const ITSELF: &[u8] = b"proof 1\ngoal\nblock\nh -(= a a)\neq a a refl\nneq 0 0\nrup [] 1 0\nend\n";

/// Version 2 with axioms, and one line of numerals of both sorts, a bound variable's block with an empty trigger, and a remainder.
const SECOND: &[u8] =
    b"proof 2\naxioms [0 3]\ntri (% -5 3) 7\ntri -3/2 5/1\ndef 11 (@all [int] [[]] (< #0 (~ #0)))\nend\n";

fn whole(top: i128) -> Term {
    Term::Num {
        top,
        bottom: 1,
        real: false,
    }
}

fn numerals(alloc: Global) -> Result<List<ClauseLine>, AllocError> {
    let mut args = List::new(alloc);
    args.push(whole(-5))?;
    args.push(whole(3))?;
    let left = Term::Apply {
        head: Head::Int(Op::Mod),
        sorts: List::new(alloc),
        args,
    };
    let mut lines = List::new(alloc);
    lines.push(ClauseLine::Tri {
        left,
        right: whole(7),
    })?;
    let half = Term::Num {
        top: -3,
        bottom: 2,
        real: true,
    };
    let five = Term::Num {
        top: 5,
        bottom: 1,
        real: true,
    };
    lines.push(ClauseLine::Tri {
        left: half,
        right: five,
    })?;
    lines.push(ClauseLine::Def {
        row: 11,
        formula: below_its_opposite(alloc)?,
    })?;
    Ok(lines)
}

fn below_its_opposite(alloc: Global) -> Result<Formula, AllocError> {
    let mut args = List::new(alloc);
    args.push(Term::Bound(0))?;
    let opposite = Term::Apply {
        head: Head::Int(Op::Neg),
        sorts: List::new(alloc),
        args,
    };
    let mut sorts = List::new(alloc);
    sorts.push(Sort::Int)?;
    let mut triggers = List::new(alloc);
    triggers.push(List::new(alloc))?;
    let body = Formula::Lt {
        left: Term::Bound(0),
        right: opposite,
    };
    Ok(Formula::All(Quant {
        sorts,
        triggers,
        body: Boxed::new(alloc, body)?,
    }))
}

#[test]
fn numerals_and_axioms(rt: HostRuntime) -> Result<(), Fail> {
    let alloc = rt.alloc();
    let mut places = List::new(alloc);
    places.push(0)?;
    places.push(3)?;
    let text = ProofText {
        axioms: Some(places),
        proof: Proof {
            lines: numerals(alloc)?,
        },
    };
    let bytes = write_proof(alloc, &signature(alloc)?, &text)?;
    assert!(rt; bytes.as_slice() == SECOND);
    Ok(())
}

#[test]
fn a_constant_equals_itself(rt: HostRuntime) -> Result<(), Fail> {
    let alloc = rt.alloc();
    let text = ProofText {
        axioms: None,
        proof: itself(alloc)?,
    };
    let bytes = write_proof(alloc, &signature(alloc)?, &text)?;
    assert!(rt; bytes.as_slice() == ITSELF);
    Ok(())
}
