//! Linear forms, values and rules.
ghost use Rattle.std.specs.Prelude.{◌≡◌, ◌++◌, codes, decimal, OnOk};
ghost use Rattle.std.specs.Fmt.{signed_decimal};
ghost use Rattle.std.specs.List.{flat_map};
ghost use Rattle.ae_num.specs.declared.forms.Value.TheVariants.{Fields};
ghost use Rattle.ae_prooftext.specs.Words.{takes_sorts};
ghost use Rattle.ae_stategrammar.specs.StateTexts.{names_text, sorted_symbol, symbol_by, symbol_text, sides_text};
ghost use Rattle.ae_valuetext.specs.Texts.{part_text, lin_text, value_text};

use ae_core::problems::{AcSymbol, Signature};
use ae_core::terms::{Head, Sort};
use ae_num::forms::{Lin, Name, Part, Value};
use ae_prooftext::{
    put, put_head, put_integer, put_number, put_number_list, put_sign, put_sorts, takes_sorts,
};
use std::alloc::AllocError;

fn put_part(out: &mut Vec<u8>, part: &Part) -> Result<(), AllocError>
    ensures { OnOk result (out.new.items ≡ out.old.items ++ part_text part.now) }
{
    put(out, b" ")?;
    put_integer(out, part.factor)?;
    put(out, b" ")?;
    put_number(out, part.key)
}

fn put_form_parts(out: &mut Vec<u8>, parts: &[Part]) -> Result<(), AllocError>
    ensures { OnOk result (out.new.items ≡ out.old.items ++ flat_map part_text parts.now) }
{
    for part in parts {
        put_part(out, part)?;
    }
    Ok(())
}

/// Puts what a linear form begins with: its denominator and its constant.
fn put_form_start(out: &mut Vec<u8>, den: i128, constant: i128) -> Result<(), AllocError>
    ensures { OnOk result (out.new.items ≡ out.old.items ++ (codes "(lin " ++ signed_decimal den ++ codes " " ++ signed_decimal constant)) }
{
    put(out, b"(lin ")?;
    put_integer(out, den)?;
    put(out, b" ")?;
    put_integer(out, constant)
}

/// Puts a linear form at the end.
#[tactic(auto, unfolding(ae_valuetext::specs::Texts::lin_text))]
pub fn put_lin(out: &mut Vec<u8>, form: &Lin) -> Result<(), AllocError>
    ensures { OnOk result (out.new.items ≡ out.old.items ++ lin_text form.now) }
{
    put_form_start(out, form.den, form.constant)?;
    put_form_parts(out, form.parts.as_slice())?;
    put(out, b")")
}

/// Puts a value.
#[cycle(put_value)]
#[tactic(auto, using(crate::proofs::ValueTexts::value_rules))]
pub fn put_value(out: &mut Vec<u8>, value: &Value) -> Result<(), AllocError>
    ensures { OnOk result (out.new.items ≡ out.old.items ++ value_text value.now) }
{
    match value {
        Value::Leaf(name) => put_number(out, *name),
        Value::Number(form) => put_lin(out, form),
        Value::Fields(values) => put_fields(out, values.as_slice()),
    }
}

#[cycle(put_value)]
#[tactic(auto, using(crate::proofs::ValueTexts::text_fields))]
fn put_fields(out: &mut Vec<u8>, values: &[Value]) -> Result<(), AllocError>
    ensures { OnOk result (out.new.items ≡ out.old.items ++ value_text (Fields values.now)) }
{
    put(out, b"(:")?;
    put_values(out, values)?;
    put(out, b")")
}

#[cycle(put_value)]
fn put_values(out: &mut Vec<u8>, values: &[Value]) -> Result<(), AllocError>
    ensures { OnOk result (out.new.items ≡ out.old.items ++ flat_map (λ v. codes " " ++ value_text v) values.now) }
{
    for value in values {
        put(out, b" ")?;
        put_value(out, value)?;
    }
    Ok(())
}

/// Puts a multiset of names.
fn put_names(out: &mut Vec<u8>, names: &[Name]) -> Result<(), AllocError>
    ensures { OnOk result (out.new.items ≡ out.old.items ++ names_text names.now) }
{
    put(out, b"[")?;
    put_number_list(out, names)
}

fn put_sorted(
    out: &mut Vec<u8>,
    signature: &Signature,
    head: Head,
    sorts: &[Sort],
) -> Result<(), AllocError>
    ensures { OnOk result (out.new.items ≡ out.old.items ++ sorted_symbol signature.now (takes_sorts signature.now head) head sorts.now) }
{
    if !takes_sorts(signature, head) {
        return put_head(out, signature, head);
    }
    put(out, b"(")?;
    put_head(out, signature, head)?;
    put(out, b" [")?;
    put_sorts(out, signature, sorts)?;
    put(out, b")")
}

fn put_symbol_by(
    out: &mut Vec<u8>,
    signature: &Signature,
    head: Head,
    sorts: &[Sort],
) -> Result<(), AllocError>
    ensures { OnOk result (out.new.items ≡ out.old.items ++ symbol_by signature.now head sorts.now) }
{
    match head {
        Head::Int(op) => {
            put_sign(out, op)?;
            put(out, b"int")
        }
        Head::Real(op) => {
            put_sign(out, op)?;
            put(out, b"real")
        }
        Head::Symbol(_) => put_sorted(out, signature, head, sorts),
        Head::Build(_) => put_sorted(out, signature, head, sorts),
        Head::Field { .. } => put_sorted(out, signature, head, sorts),
        Head::True => put_sorted(out, signature, head, sorts),
        Head::False => put_sorted(out, signature, head, sorts),
        Head::Void => put_sorted(out, signature, head, sorts),
    }
}

/// Puts an associative and commutative symbol.
#[tactic(auto, unfolding(ae_stategrammar::specs::StateTexts::symbol_text))]
fn put_symbol(out: &mut Vec<u8>, signature: &Signature, symbol: &AcSymbol) -> Result<(), AllocError>
    ensures { OnOk result (out.new.items ≡ out.old.items ++ symbol_text signature.now symbol.now) }
{
    put_symbol_by(out, signature, symbol.head, symbol.sorts.as_slice())
}

/// Puts a symbol, the two multisets of a rule or a pair, and the end of the line.
#[tactic(auto, unfolding(ae_stategrammar::specs::StateTexts::sides_text))]
pub fn put_sides(
    out: &mut Vec<u8>,
    signature: &Signature,
    symbol: &AcSymbol,
    left: &[Name],
    right: &[Name],
) -> Result<(), AllocError>
    ensures { OnOk result (out.new.items ≡ out.old.items ++ sides_text signature.now symbol.now left.now right.now) }
{
    put_symbol(out, signature, symbol)?;
    put(out, b" ")?;
    put_names(out, left)?;
    put(out, b" ")?;
    put_names(out, right)?;
    put(out, b"\n")
}
