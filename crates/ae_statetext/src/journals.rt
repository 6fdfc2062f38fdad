//! Journals, and widths with their journals.
ghost use Rattle.std.specs.Prelude.{◌≡◌, ◌++◌, codes, decimal, map, OnOk, IfOk};
ghost use Rattle.ae_codes.specs.Listings.{listed_text};
ghost use Rattle.ae_prooftext.specs.Texts.{sort_text, term_text, formula_text, literal_text};
ghost use Rattle.ae_prooftext.specs.Words.{type_names};
ghost use Rattle.std.specs.List.{flat_map};
ghost use Rattle.ae_stategrammar.specs.StateTexts.{oriented_text, line_text, story_text, number_text, combined, wide_line, key_line, step_word, op_word};
ghost use Rattle.ae_valuetext.specs.Texts.{lin_text, value_text};

use crate::states::{put_name_lines, put_numbered};
use crate::values::{put_lin, put_sides, put_value};
use ae_core::formulas::{Formula, Lit};
use ae_core::problems::Signature;
use ae_core::terms::{Sort, Term};
use ae_journal::answers::{NumStep, WideAt};
use ae_journal::lines::{Line, Oriented, Story};
use ae_num::forms::{Lin, Name, Value};
use ae_num::numbers::NumOp;
use ae_prooftext::{
    put, put_formula, put_integer, put_literal, put_literals, put_number as put_size, put_sorts,
    put_terms,
};
use std::alloc::{AllocError, Global};

fn put_solved(out: &mut Vec<u8>, name: Name, value: &Value) -> Result<(), AllocError>
    ensures { OnOk result (out.new.items ≡ out.old.items ++ (codes "solve " ++ decimal name ++ codes " " ++ value_text value.now ++ codes "\n")) }
{
    put(out, b"solve ")?;
    put_size(out, name)?;
    put(out, b" ")?;
    put_value(out, value)?;
    put(out, b"\n")
}

#[tactic(auto, unfolding(ae_stategrammar::specs::StateTexts::oriented_text))]
fn put_oriented(
    out: &mut Vec<u8>,
    signature: &Signature,
    oriented: &Oriented,
) -> Result<(), AllocError>
    ensures { OnOk result (out.new.items ≡ out.old.items ++ oriented_text signature.now oriented.now) }
{
    match oriented {
        Oriented::Named { name, value } => put_solved(out, *name, value),
        Oriented::Rule {
            symbol,
            left,
            right,
        } => {
            put(out, b"rule ")?;
            put_sides(out, signature, symbol, left.as_slice(), right.as_slice())
        }
    }
}

fn put_decision(out: &mut Vec<u8>, signature: &Signature, literal: &Lit) -> Result<(), AllocError>
    ensures { OnOk result (out.new.items ≡ out.old.items ++ (codes "decide " ++ literal_text signature.now literal.now ++ codes "\n")) }
{
    put(out, b"decide ")?;
    put_literal(out, signature, literal)?;
    put(out, b"\n")
}

fn put_learnt(out: &mut Vec<u8>, signature: &Signature, clause: &[Lit]) -> Result<(), AllocError>
    ensures { OnOk result (out.new.items ≡ out.old.items ++ (codes "learn [" ++ listed_text 93 (map (literal_text signature.now) clause.now) ++ codes "\n")) }
{
    put(out, b"learn [")?;
    put_literals(out, signature, clause)?;
    put(out, b"\n")
}

fn put_type_instance(
    out: &mut Vec<u8>,
    signature: &Signature,
    place: usize,
    sorts: &[Sort],
) -> Result<(), AllocError>
    ensures { OnOk result (out.new.items ≡ out.old.items ++ (codes "instance type " ++ decimal place ++ codes " [" ++ listed_text 93 (map (sort_text (type_names signature.now)) sorts.now) ++ codes "\n")) }
{
    put_numbered(out, b"instance type ", place, b" [")?;
    put_sorts(out, signature, sorts)?;
    put(out, b"\n")
}

fn put_term_instance(
    out: &mut Vec<u8>,
    signature: &Signature,
    formula: &Formula,
    terms: &[Term],
) -> Result<(), AllocError>
    ensures { OnOk result (out.new.items ≡ out.old.items ++ (codes "instance term " ++ formula_text signature.now formula.now ++ codes " [" ++ listed_text 93 (map (term_text signature.now) terms.now) ++ codes "\n")) }
{
    put(out, b"instance term ")?;
    put_formula(out, signature, formula)?;
    put(out, b" [")?;
    put_terms(out, signature, terms)?;
    put(out, b"\n")
}

fn put_combined(out: &mut Vec<u8>, strict: bool, row: &Lin) -> Result<(), AllocError>
    ensures { OnOk result (out.new.items ≡ out.old.items ++ (combined strict ++ lin_text row.now ++ codes "\n")) }
{
    let word: &[u8] = if strict {
        b"combine gt "
    } else {
        b"combine ge "
    };
    put(out, word)?;
    put_lin(out, row)?;
    put(out, b"\n")
}

fn put_back(out: &mut Vec<u8>, level: usize) -> Result<(), AllocError>
    ensures { OnOk result (out.new.items ≡ out.old.items ++ (codes "back " ++ decimal level ++ codes "\n")) }
{
    put(out, b"back ")?;
    put_size(out, level)?;
    put(out, b"\n")
}

#[tactic(auto, unfolding(ae_stategrammar::specs::StateTexts::line_text))]
fn put_line(out: &mut Vec<u8>, signature: &Signature, line: &Line) -> Result<(), AllocError>
    ensures { OnOk result (out.new.items ≡ out.old.items ++ line_text signature.now line.now) }
{
    match line {
        Line::Decide(literal) => put_decision(out, signature, literal),
        Line::Orient(oriented) => put_oriented(out, signature, oriented),
        Line::Drop(oriented) => {
            put(out, b"drop ")?;
            put_oriented(out, signature, oriented)
        }
        Line::Pair {
            symbol,
            first,
            second,
        } => {
            put(out, b"pair ")?;
            put_sides(out, signature, symbol, first.as_slice(), second.as_slice())
        }
        Line::Learn(clause) => put_learnt(out, signature, clause.as_slice()),
        Line::TypeInstance { axiom, sorts } => put_type_instance(
            out,
            signature,
            *axiom,
            sorts.as_slice(),
        ),
        Line::TermInstance { formula, terms } => put_term_instance(
            out,
            signature,
            formula,
            terms.as_slice(),
        ),
        Line::Combine { strict, row } => put_combined(out, *strict, row),
        Line::Back(level) => put_back(out, *level),
    }
}

fn put_lines(out: &mut Vec<u8>, signature: &Signature, lines: &[Line]) -> Result<(), AllocError>
    ensures { OnOk result (out.new.items ≡ out.old.items ++ flat_map (line_text signature.now) lines.now) }
{
    for line in lines {
        put_line(out, signature, line)?;
    }
    Ok(())
}

/// Puts the text of a journal at the end; `Err` where there is no memory for it.
#[tactic(auto, unfolding(ae_stategrammar::specs::StateTexts::story_text))]
pub fn put_story(out: &mut Vec<u8>, signature: &Signature, story: &Story) -> Result<(), AllocError>
    ensures text { OnOk result (out.new.items ≡ out.old.items ++ story_text signature.now story.now) }
{
    put(out, b"journal 1\n")?;
    put_name_lines(out, signature, story.names.as_slice())?;
    put_lines(out, signature, story.lines.as_slice())?;
    put(out, b"end\n")
}

/// The text of a journal; `Err` where there is no memory for it.
pub fn write_story(
    alloc: Global,
    signature: &Signature,
    story: &Story,
) -> Result<Vec<u8>, AllocError>
    ensures text { IfOk result (λ bytes. bytes.items ≡ story_text signature.now story.now) }
{
    let mut out = Vec::new(alloc);
    put_story(&mut out, signature, story)?;
    Ok(out)
}

fn put_step(out: &mut Vec<u8>, step: NumStep) -> Result<(), AllocError>
    ensures { OnOk result (out.new.items ≡ out.old.items ++ step_word step) }
{
    match step {
        NumStep::Plus => put(out, b"plus"),
        NumStep::Scale => put(out, b"scale"),
        NumStep::Subst => put(out, b"subst"),
        NumStep::Combine => put(out, b"combine"),
    }
}

fn put_op(out: &mut Vec<u8>, op: NumOp) -> Result<(), AllocError>
    ensures { OnOk result (out.new.items ≡ out.old.items ++ op_word op) }
{
    match op {
        NumOp::Mul => put(out, b"mul"),
        NumOp::Add => put(out, b"add"),
    }
}

fn put_wide_line(out: &mut Vec<u8>, at: &WideAt) -> Result<(), AllocError>
    ensures { OnOk result (out.new.items ≡ out.old.items ++ wide_line at.now) }
{
    put(out, b"wide ")?;
    put_step(out, at.step)?;
    put(out, b" ")?;
    put_op(out, at.wide.op)?;
    put(out, b" ")?;
    put_integer(out, at.wide.left)?;
    put(out, b" ")?;
    put_integer(out, at.wide.right)?;
    put(out, b"\n")
}

fn put_form_line(out: &mut Vec<u8>, word: &[u8], form: &Lin) -> Result<(), AllocError>
    ensures { OnOk result (out.new.items ≡ out.old.items ++ (word.now ++ lin_text form.now ++ codes "\n")) }
{
    put(out, word)?;
    put_lin(out, form)?;
    put(out, b"\n")
}

fn put_key_line(out: &mut Vec<u8>, key: Option<Name>) -> Result<(), AllocError>
    ensures { OnOk result (out.new.items ≡ out.old.items ++ key_line key) }
{
    match key {
        None => Ok(()),
        Some(name) => {
            put(out, b"key ")?;
            put_size(out, name)?;
            put(out, b"\n")
        }
    }
}

/// Puts the text of a width with its journal at the end; `Err` where there is no memory for it.
#[tactic(auto, unfolding(ae_stategrammar::specs::StateTexts::number_text))]
pub fn put_number(
    out: &mut Vec<u8>,
    signature: &Signature,
    story: &Story,
    at: &WideAt,
) -> Result<(), AllocError>
    ensures text { OnOk result (out.new.items ≡ out.old.items ++ number_text signature.now story.now at.now) }
{
    put_wide_line(out, at)?;
    put_form_line(out, b"left ", &at.left)?;
    put_key_line(out, at.key)?;
    put_form_line(out, b"right ", &at.right)?;
    put_story(out, signature, story)
}

/// The text of a width with its journal; `Err` where there is no memory for it.
pub fn write_number(
    alloc: Global,
    signature: &Signature,
    story: &Story,
    at: &WideAt,
) -> Result<Vec<u8>, AllocError>
    ensures text { IfOk result (λ bytes. bytes.items ≡ number_text signature.now story.now at.now) }
{
    let mut out = Vec::new(alloc);
    put_number(&mut out, signature, story, at)?;
    Ok(out)
}
