//! How a problem is written.

use ae_core::formulas::Formula;
use ae_core::problems::{Item, Problem, Signature};
use ae_core::words::Word;
use ae_prooftext::{put, put_formula, put_number};
use std::alloc::AllocError;

/// Puts the line of an axiom or a goal.
fn put_line(
    out: &mut Vec<u8>,
    signature: &Signature,
    name: &Word,
    count: usize,
    body: &Formula,
) -> Result<(), AllocError> {
    put(out, name.as_str().as_bytes())?;
    put(out, b" ")?;
    put_number(out, count)?;
    put(out, b" ")?;
    put_formula(out, signature, body)?;
    put(out, b"\n")
}

fn put_item(out: &mut Vec<u8>, signature: &Signature, item: &Item) -> Result<(), AllocError> {
    match item {
        Item::Axiom { name, vars, body } => {
            put(out, b"axiom ")?;
            put_line(out, signature, name, *vars, body)
        }
        Item::Goal { name, rigid, body } => {
            put(out, b"goal ")?;
            put_line(out, signature, name, *rigid, body)
        }
    }
}

/// Puts the lines of a problem's axioms and goals.
pub fn put_problem(out: &mut Vec<u8>, problem: &Problem) -> Result<(), AllocError> {
    for item in problem.items.as_slice() {
        put_item(out, &problem.signature, item)?;
    }
    Ok(())
}
