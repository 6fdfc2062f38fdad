//! The words of a signature.
ghost use Rattle.std.specs.Prelude.{◌≡◌, ◌++◌, OnOk};
ghost use Rattle.ae_core.specs.declared.terms.Head.TheVariants.{Build, Field as FieldHead};
ghost use Rattle.ae_prooftext.specs.Words.{type_name, symbol_name, field_in, field_name, op_sign, head_word, has_variables, has_parameters, takes_sorts};

use crate::bytes::put;
use ae_core::lists::at;
use ae_core::problems::{Kind, Signature, TypeEntry};
use ae_core::terms::{Head, Op};
use std::alloc::AllocError;

/// Puts the name of the type of this number; nothing where there is none.
pub fn put_type_name(
    out: &mut Vec<u8>,
    signature: &Signature,
    number: usize,
) -> Result<(), AllocError>
    ensures { OnOk result (out.new.items ≡ out.old.items ++ type_name signature.now number) }
{
    match at(signature.types.as_slice(), number) {
        Some(entry) => put(out, entry.name.as_str().as_bytes()),
        None => Ok(()),
    }
}

/// Puts the name of the symbol of this number; nothing where there is none.
pub fn put_symbol_name(
    out: &mut Vec<u8>,
    signature: &Signature,
    number: usize,
) -> Result<(), AllocError>
    ensures { OnOk result (out.new.items ≡ out.old.items ++ symbol_name signature.now number) }
{
    match at(signature.symbols.as_slice(), number) {
        Some(entry) => put(out, entry.name.as_str().as_bytes()),
        None => Ok(()),
    }
}

/// Puts the name of a field of a record type; nothing where there is none.
fn put_field_name(
    out: &mut Vec<u8>,
    signature: &Signature,
    of: usize,
    place: usize,
) -> Result<(), AllocError>
    ensures { OnOk result (out.new.items ≡ out.old.items ++ field_name signature.now of place) }
{
    match at(signature.types.as_slice(), of) {
        Some(entry) => put_field_of(out, entry, place),
        None => Ok(()),
    }
}

fn put_field_of(out: &mut Vec<u8>, entry: &TypeEntry, place: usize) -> Result<(), AllocError>
    ensures { OnOk result (out.new.items ≡ out.old.items ++ field_in entry.now place) }
{
    match &entry.kind {
        Kind::Fields(fields) => match at(fields.as_slice(), place) {
            Some(field) => put(out, field.name.as_str().as_bytes()),
            None => Ok(()),
        },
        Kind::Abstract => Ok(()),
        Kind::Choices(_) => Ok(()),
    }
}

/// Puts the sign of an operation.
pub fn put_sign(out: &mut Vec<u8>, op: Op) -> Result<(), AllocError>
    ensures { OnOk result (out.new.items ≡ out.old.items ++ op_sign op) }
{
    match op {
        Op::Add => put(out, b"+"),
        Op::Sub => put(out, b"-"),
        Op::Neg => put(out, b"~"),
        Op::Mul => put(out, b"*"),
        Op::Div => put(out, b"/"),
        Op::Mod => put(out, b"%"),
    }
}

/// Puts the word of a head.
#[tactic(auto, unfolding(crate::specs::Words::head_word))]
pub fn put_head(out: &mut Vec<u8>, signature: &Signature, head: Head) -> Result<(), AllocError>
    ensures { OnOk result (out.new.items ≡ out.old.items ++ head_word signature.now head) }
{
    match head {
        Head::Symbol(number) => put_symbol_name(out, signature, number),
        Head::Build(number) => put_record(out, signature, number),
        Head::Field { of, place } => put_field(out, signature, of, place),
        Head::Int(op) => put_sign(out, op),
        Head::Real(op) => put_sign(out, op),
        Head::True => put(out, b"true"),
        Head::False => put(out, b"false"),
        Head::Void => put(out, b"void"),
    }
}

#[tactic(auto, unfolding(crate::specs::Words::head_word))]
fn put_record(out: &mut Vec<u8>, signature: &Signature, number: usize) -> Result<(), AllocError>
    ensures { OnOk result (out.new.items ≡ out.old.items ++ head_word signature.now (Build number)) }
{
    put(out, b":")?;
    put_type_name(out, signature, number)
}

#[tactic(auto, unfolding(crate::specs::Words::head_word))]
fn put_field(
    out: &mut Vec<u8>,
    signature: &Signature,
    of: usize,
    place: usize,
) -> Result<(), AllocError>
    ensures { OnOk result (out.new.items ≡ out.old.items ++ head_word signature.now (FieldHead of place)) }
{
    put(out, b".")?;
    put_field_name(out, signature, of, place)
}

/// Whether the symbol of this number has type variables.
pub fn has_variables(signature: &Signature, number: usize) -> bool
    ensures { result ≡ has_variables signature.now number }
{
    match at(signature.symbols.as_slice(), number) {
        Some(entry) => entry.vars != 0,
        None => false,
    }
}

fn has_parameters(signature: &Signature, number: usize) -> bool
    ensures { result ≡ has_parameters signature.now number }
{
    match at(signature.types.as_slice(), number) {
        Some(entry) => entry.arity != 0,
        None => false,
    }
}

/// Whether sorts in square brackets stand behind a head.
#[tactic(auto, unfolding(crate::specs::Words::takes_sorts))]
pub fn takes_sorts(signature: &Signature, head: Head) -> bool
    ensures { result ≡ takes_sorts signature.now head }
{
    match head {
        Head::Symbol(number) => has_variables(signature, number),
        Head::Build(number) => has_parameters(signature, number),
        Head::Field { of, .. } => has_parameters(signature, of),
        Head::Int(_) => false,
        Head::Real(_) => false,
        Head::True => false,
        Head::False => false,
        Head::Void => false,
    }
}
