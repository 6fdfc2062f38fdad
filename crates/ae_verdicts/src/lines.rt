//! Verdicts, and the lines that give them.
ghost use Rattle.std.specs.Prelude.{◌≡◌, ◌++◌, IfOk, OnOk};
ghost use Rattle.ae_verdicts.specs.Verdicts as spec;
ghost use Rattle.ae_verdicts.specs.Verdicts.{words_of};

use ae_prooftext::{put, put_number};
use std::alloc::{AllocError, Global};

/// What is said of the part that an output gives for a goal.
#[derive(Clone, Copy, Debug, PartialEq, Eq)]
pub enum Verdict {
    /// It is a proof that derives the goal, and it lists the axioms of the proof, or is of version 1 and lists none.
    Accepted,
    /// It is a proof that derives the goal, but it lists other axioms than the proof has.
    RefusedAxioms,
    /// It is a proof of which this is the first line that isn't allowed, counted from 0, or the number of lines where all are allowed and the
    /// last one doesn't state the empty clause.
    Refused(usize),
    /// It is a proof whose first line that isn't settled states a product or a sum outside the limits.
    Number,
    /// It is no proof.
    Unchecked,
}

/// Puts the words for a verdict.
fn put_words(out: &mut Vec<u8>, verdict: Verdict) -> Result<(), AllocError>
    ensures { OnOk result (out.new.items ≡ out.old.items ++ words_of verdict) }
{
    match verdict {
        Verdict::Accepted => put(out, b" accepted"),
        Verdict::RefusedAxioms => put(out, b" refused axioms"),
        Verdict::Refused(line) => {
            put(out, b" refused ")?;
            put_number(out, line)
        }
        Verdict::Number => put(out, b" number"),
        Verdict::Unchecked => put(out, b" unchecked"),
    }
}

/// Puts the line that gives the verdict for the goal of this name; `Err` where there is no memory for it.
pub fn put_verdict_line(out: &mut Vec<u8>, name: &str, verdict: Verdict) -> Result<(), AllocError>
    ensures line { OnOk result (out.new.items ≡ out.old.items ++ spec.verdict_line name.now verdict) }
{
    put(out, b"goal ")?;
    put(out, name.as_bytes())?;
    put_words(out, verdict)?;
    put(out, b"\n")
}

/// The line that gives the verdict for the goal of this name, with its end; `Err` where there is no memory for it.
pub fn verdict_line(alloc: Global, name: &str, verdict: Verdict) -> Result<Vec<u8>, AllocError>
    ensures line { IfOk result (λ bytes. bytes.items ≡ spec.verdict_line name.now verdict) }
{
    let mut out = Vec::new(alloc);
    put_verdict_line(&mut out, name, verdict)?;
    Ok(out)
}
