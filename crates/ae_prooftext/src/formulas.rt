//! Formulas, literals and clauses.
ghost use Rattle.std.specs.Prelude.{◌≡◌, ◌++◌, OnOk};
ghost use Rattle.ae_prooftext.specs.Texts.{formula_text, literal_text};
ghost use Rattle.ae_prooftext.specs.Inner.Pieces.{relation_bytes, negation_bytes, left_bytes, right_bytes, quant_bytes, spaced_literals, literals_bytes};

use crate::bytes::put;
use crate::sorts::put_sorts;
use crate::terms::{put_application, put_term, put_terms, put_triggers};
use ae_core::formulas::{Formula, Lit, Quant};
use ae_core::problems::Signature;
use ae_core::terms::{Head, Term};
use std::alloc::AllocError;

/// Puts a formula at the end.
#[cycle(put_formula)]
#[tactic(auto, using(crate::proofs::Rules::formula_rules))]
pub fn put_formula(
    out: &mut Vec<u8>,
    signature: &Signature,
    formula: &Formula,
) -> Result<(), AllocError>
    ensures { OnOk result (out.new.items ≡ out.old.items ++ formula_text signature.now formula.now) }
{
    match formula {
        Formula::True => put(out, b"@t"),
        Formula::False => put(out, b"@f"),
        Formula::Eq { left, right } => put_relation(out, signature, b"(= ", left, right),
        Formula::Lt { left, right } => put_relation(out, signature, b"(< ", left, right),
        Formula::Le { left, right } => put_relation(out, signature, b"(<= ", left, right),
        Formula::Pred {
            symbol,
            sorts,
            args,
        } => {
            let head = Head::Symbol(*symbol);
            put_application(out, signature, head, sorts.as_slice(), args.as_slice())
        }
        Formula::Not(a) => put_negation(out, signature, a.get()),
        Formula::And(a, b) => {
            put_left(out, signature, b"(@and ", a.get())?;
            put_right(out, signature, b.get())
        }
        Formula::Or(a, b) => {
            put_left(out, signature, b"(@or ", a.get())?;
            put_right(out, signature, b.get())
        }
        Formula::Xor(a, b) => {
            put_left(out, signature, b"(@xor ", a.get())?;
            put_right(out, signature, b.get())
        }
        Formula::Iff(a, b) => {
            put_left(out, signature, b"(@iff ", a.get())?;
            put_right(out, signature, b.get())
        }
        Formula::All(quant) => put_quant(out, signature, b"(@all [", quant),
        Formula::Ex(quant) => put_quant(out, signature, b"(@ex [", quant),
    }
}

/// Puts a relation of two terms, which begins so.
fn put_relation(
    out: &mut Vec<u8>,
    signature: &Signature,
    word: &[u8],
    left: &Term,
    right: &Term,
) -> Result<(), AllocError>
    ensures { OnOk result (out.new.items ≡ out.old.items ++ relation_bytes signature.now word.now left.now right.now) }
{
    put(out, word)?;
    put_term(out, signature, left)?;
    put(out, b" ")?;
    put_term(out, signature, right)?;
    put(out, b")")
}

#[cycle(put_formula)]
fn put_negation(
    out: &mut Vec<u8>,
    signature: &Signature,
    formula: &Formula,
) -> Result<(), AllocError>
    ensures { OnOk result (out.new.items ≡ out.old.items ++ negation_bytes signature.now formula.now) }
{
    put(out, b"(@not ")?;
    put_formula(out, signature, formula)?;
    put(out, b")")
}

/// Puts the word that a connective begins with, its left formula and a blank.
#[cycle(put_formula)]
fn put_left(
    out: &mut Vec<u8>,
    signature: &Signature,
    word: &[u8],
    formula: &Formula,
) -> Result<(), AllocError>
    ensures { OnOk result (out.new.items ≡ out.old.items ++ left_bytes signature.now word.now formula.now) }
{
    put(out, word)?;
    put_formula(out, signature, formula)?;
    put(out, b" ")
}

/// Puts the right formula of a connective and the bracket that closes it.
#[cycle(put_formula)]
fn put_right(out: &mut Vec<u8>, signature: &Signature, formula: &Formula) -> Result<(), AllocError>
    ensures { OnOk result (out.new.items ≡ out.old.items ++ right_bytes signature.now formula.now) }
{
    put_formula(out, signature, formula)?;
    put(out, b")")
}

/// Puts a block of variables with its triggers and the formula under it, which begins so.
#[cycle(put_formula)]
fn put_quant(
    out: &mut Vec<u8>,
    signature: &Signature,
    word: &[u8],
    quant: &Quant,
) -> Result<(), AllocError>
    ensures { OnOk result (out.new.items ≡ out.old.items ++ quant_bytes signature.now word.now quant.now) }
{
    put(out, word)?;
    put_sorts(out, signature, quant.sorts.as_slice())?;
    put(out, b" [")?;
    put_triggers(out, signature, quant.triggers.as_slice())?;
    put(out, b" ")?;
    put_formula(out, signature, quant.body.get())?;
    put(out, b")")
}

/// Puts a literal: its sign and its formula.
pub fn put_literal(out: &mut Vec<u8>, signature: &Signature, lit: &Lit) -> Result<(), AllocError>
    ensures { OnOk result (out.new.items ≡ out.old.items ++ literal_text signature.now lit.now) }
{
    if lit.positive {
        put(out, b"+")?;
        return put_formula(out, signature, &lit.formula);
    }
    put(out, b"-")?;
    put_formula(out, signature, &lit.formula)
}

fn put_spaced_literals(
    out: &mut Vec<u8>,
    signature: &Signature,
    lits: &[Lit],
) -> Result<(), AllocError>
    ensures { OnOk result (out.new.items ≡ out.old.items ++ spaced_literals signature.now lits.now) }
{
    for lit in lits {
        put(out, b" ")?;
        put_literal(out, signature, lit)?;
    }
    Ok(())
}

/// Puts literals with a blank between two, and the square bracket that closes them.
pub fn put_literals(
    out: &mut Vec<u8>,
    signature: &Signature,
    lits: &[Lit],
) -> Result<(), AllocError>
    ensures { OnOk result (out.new.items ≡ out.old.items ++ literals_bytes signature.now lits.now) }
{
    match lits.split_first() {
        None => put(out, b"]"),
        Some((first, rest)) => {
            put_literal(out, signature, first)?;
            put_spaced_literals(out, signature, rest)?;
            put(out, b"]")
        }
    }
}
