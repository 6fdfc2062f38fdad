//! A problem whose axiom is false, and short proof texts for its goal.
use ae_core::formulas::Formula;
use ae_core::lists::{Boxed, List};
use ae_core::problems::{Item, Problem, Signature};
use ae_core::proofs::{ClauseLine, Proof};
use ae_core::words::Word;
use ae_prooftext::ProofText;
use ae_verdicts::checking::{verdict, verdict_on_part};
use ae_verdicts::lines::{Verdict, verdict_line};
use std::alloc::{AllocError, Global};

fn word(alloc: Global) -> Result<Word, AllocError> {
    Ok(Word::from_string(String::from_str(alloc, "name")?))
}

/// `axiom name : false` and `goal name : not true`
fn problem(alloc: Global) -> Result<Problem, AllocError> {
    let mut items = List::new(alloc);
    items.push(Item::Axiom {
        name: word(alloc)?,
        vars: 0,
        body: Formula::False,
    })?;
    items.push(Item::Goal {
        name: word(alloc)?,
        rigid: 0,
        body: Formula::Not(Boxed::new(alloc, Formula::True)?),
    })?;
    Ok(Problem {
        signature: Signature {
            types: List::new(alloc),
            symbols: List::new(alloc),
        },
        items,
    })
}

/// The axiom, a defining clause of `false`, and the empty clause. 16 is the number of the clause that `false` has.
fn proof(alloc: Global, row: usize) -> Result<Proof, AllocError> {
    let mut lines = List::new(alloc);
    lines.push(ClauseLine::Hyp {
        axiom: 0,
        sorts: List::new(alloc),
    })?;
    lines.push(ClauseLine::Def {
        row,
        formula: Formula::False,
    })?;
    lines.push(ClauseLine::Rup {
        clause: List::new(alloc),
        hints: List::from_slice(alloc, &[0, 1])?,
    })?;
    Ok(Proof { lines })
}

/// The verdict on the proof with this row, where its text lists these axioms.
fn listed(alloc: Global, row: usize, axioms: &[usize]) -> Result<Verdict, AllocError> {
    let text = ProofText {
        axioms: Some(List::from_slice(alloc, axioms)?),
        proof: proof(alloc, row)?,
    };
    let problem = problem(alloc)?;
    verdict(alloc, &problem, 1, &text)
}

#[test]
fn axioms_are_compared_where_a_proof_derives(rt: HostRuntime) -> Result<(), AllocError> {
    let alloc = rt.alloc();
    assert_eq!(rt; listed(alloc, 16, &[0])?, Verdict::Accepted);
    assert_eq!(rt; listed(alloc, 16, &[1])?, Verdict::RefusedAxioms);
    assert_eq!(rt; listed(alloc, 16, &[0, 0])?, Verdict::RefusedAxioms);
    assert_eq!(rt; listed(alloc, 15, &[1])?, Verdict::Refused(1));
    Ok(())
}

#[test]
fn version_1_lists_no_axioms(rt: HostRuntime) -> Result<(), AllocError> {
    let alloc = rt.alloc();
    let text = ProofText {
        axioms: None,
        proof: proof(alloc, 16)?,
    };
    let problem = problem(alloc)?;
    let found = verdict_on_part(alloc, &problem, 1, Some(&text))?;
    assert_eq!(rt; found, Verdict::Accepted);
    let missing = verdict_on_part(alloc, &problem, 1, None)?;
    assert_eq!(rt; missing, Verdict::Unchecked);
    Ok(())
}

/// Verdicts and their lines.
const LINES: [(Verdict, &str); 5] = [
    (Verdict::Accepted, "goal g accepted\n"),
    (Verdict::RefusedAxioms, "goal g refused axioms\n"),
    (Verdict::Refused(10), "goal g refused 10\n"),
    (Verdict::Number, "goal g number\n"),
    (Verdict::Unchecked, "goal g unchecked\n"),
];

#[test]
fn lines_of_verdicts(rt: HostRuntime) -> Result<(), AllocError> {
    let alloc = rt.alloc();
    for case in LINES.as_slice() {
        let line = verdict_line(alloc, "g", case.0)?;
        assert_eq!(rt; line.as_slice(), case.1.as_bytes());
    }
    Ok(())
}
