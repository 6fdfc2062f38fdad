//! States.
ghost use Rattle.std.specs.Prelude.{◌≡◌, ◌++◌, codes, decimal, OnOk, IfOk};
ghost use Rattle.std.specs.Fmt.{signed_decimal};
ghost use Rattle.std.specs.List.{flat_map};
ghost use Rattle.ae_stategrammar.specs.StateTexts.{literal_line, name_line, name_lines, value_line, value_lines, rule_line, point_line, state_text};

use crate::values::{put_sides, put_value};
use ae_core::formulas::Lit;
use ae_core::problems::Signature;
use ae_core::terms::Term;
use ae_journal::systems::{PointAt, RuleEntry, Saturated};
use ae_num::forms::{Name, Value};
use ae_prooftext::{put, put_integer, put_literal, put_number, put_term};
use std::alloc::{AllocError, Global};

fn put_literal_line(
    out: &mut Vec<u8>,
    signature: &Signature,
    literal: &Lit,
) -> Result<(), AllocError>
    ensures { OnOk result (out.new.items ≡ out.old.items ++ literal_line signature.now literal.now) }
{
    put(out, b"lit ")?;
    put_literal(out, signature, literal)?;
    put(out, b"\n")
}

fn put_literal_lines(
    out: &mut Vec<u8>,
    signature: &Signature,
    literals: &[Lit],
) -> Result<(), AllocError>
    ensures { OnOk result (out.new.items ≡ out.old.items ++ flat_map (literal_line signature.now) literals.now) }
{
    for literal in literals {
        put_literal_line(out, signature, literal)?;
    }
    Ok(())
}

fn put_name_line(
    out: &mut Vec<u8>,
    signature: &Signature,
    name: Name,
    term: &Term,
) -> Result<(), AllocError>
    ensures { OnOk result (out.new.items ≡ out.old.items ++ name_line signature.now name term.now) }
{
    put(out, b"name ")?;
    put_number(out, name)?;
    put(out, b" ")?;
    put_term(out, signature, term)?;
    put(out, b"\n")
}

/// Puts the terms of names, numbered in their order.
pub fn put_name_lines(
    out: &mut Vec<u8>,
    signature: &Signature,
    terms: &[Term],
) -> Result<(), AllocError>
    ensures { OnOk result (out.new.items ≡ out.old.items ++ name_lines signature.now 0 terms.now) }
{
    let mut name = 0;
    for term in terms {
        put_name_line(out, signature, name, term)?;
        name += 1;
    }
    Ok(())
}

fn put_value_line(out: &mut Vec<u8>, name: Name, value: &Value) -> Result<(), AllocError>
    ensures { OnOk result (out.new.items ≡ out.old.items ++ value_line name value.now) }
{
    put(out, b"value ")?;
    put_number(out, name)?;
    put(out, b" ")?;
    put_value(out, value)?;
    put(out, b"\n")
}

fn put_value_lines(out: &mut Vec<u8>, values: &[Value]) -> Result<(), AllocError>
    ensures { OnOk result (out.new.items ≡ out.old.items ++ value_lines 0 values.now) }
{
    let mut name = 0;
    for value in values {
        put_value_line(out, name, value)?;
        name += 1;
    }
    Ok(())
}

fn put_rule_lines(
    out: &mut Vec<u8>,
    signature: &Signature,
    rules: &[RuleEntry],
) -> Result<(), AllocError>
    ensures { OnOk result (out.new.items ≡ out.old.items ++ flat_map (rule_line signature.now) rules.now) }
{
    for rule in rules {
        put(out, b"rule ")?;
        put_sides(
            out,
            signature,
            &rule.symbol,
            rule.left.as_slice(),
            rule.right.as_slice(),
        )?;
    }
    Ok(())
}

/// Puts a word, a number, and what stands behind it.
pub fn put_numbered(
    out: &mut Vec<u8>,
    word: &[u8],
    number: usize,
    behind: &[u8],
) -> Result<(), AllocError>
    ensures { OnOk result (out.new.items ≡ out.old.items ++ (word.now ++ decimal number ++ behind.now)) }
{
    put(out, word)?;
    put_number(out, number)?;
    put(out, behind)
}

/// Puts a fraction that ends a line.
fn put_fraction(out: &mut Vec<u8>, top: i128, bottom: i128) -> Result<(), AllocError>
    ensures { OnOk result (out.new.items ≡ out.old.items ++ (signed_decimal top ++ codes "/" ++ signed_decimal bottom ++ codes "\n")) }
{
    put_integer(out, top)?;
    put(out, b"/")?;
    put_integer(out, bottom)?;
    put(out, b"\n")
}

fn put_point_line(out: &mut Vec<u8>, point: PointAt) -> Result<(), AllocError>
    ensures { OnOk result (out.new.items ≡ out.old.items ++ point_line point) }
{
    put_numbered(out, b"point ", point.name, b" ")?;
    put_fraction(out, point.top, point.bottom)
}

fn put_point_lines(out: &mut Vec<u8>, points: &[PointAt]) -> Result<(), AllocError>
    ensures { OnOk result (out.new.items ≡ out.old.items ++ flat_map point_line points.now) }
{
    for point in points {
        put_point_line(out, *point)?;
    }
    Ok(())
}

/// Puts the text of a state at the end; `Err` where there is no memory for it.
#[tactic(auto, unfolding(ae_stategrammar::specs::StateTexts::state_text))]
pub fn put_state(
    out: &mut Vec<u8>,
    signature: &Signature,
    state: &Saturated,
) -> Result<(), AllocError>
    ensures text { OnOk result (out.new.items ≡ out.old.items ++ state_text signature.now state.now) }
{
    put(out, b"state 1\n")?;
    put_literal_lines(out, signature, state.literals.as_slice())?;
    put_name_lines(out, signature, state.system.names.as_slice())?;
    put_value_lines(out, state.system.values.as_slice())?;
    put_rule_lines(out, signature, state.system.rules.as_slice())?;
    put_point_lines(out, state.point.as_slice())?;
    put(out, b"end\n")
}

/// The text of a state; `Err` where there is no memory for it.
pub fn write_state(
    alloc: Global,
    signature: &Signature,
    state: &Saturated,
) -> Result<Vec<u8>, AllocError>
    ensures text { IfOk result (λ bytes. bytes.items ≡ state_text signature.now state.now) }
{
    let mut out = Vec::new(alloc);
    put_state(&mut out, signature, state)?;
    Ok(out)
}
