//! What is said of triggers and matches.
use ae_core::problems::Signature;
use ae_core::terms::Term;
use ae_core::words::Word;
use ae_num::forms::Name;
use ae_prooftext::{put, put_number, put_sorts, put_term};
use ae_store::store::Store;
use ae_trigger::patterns::{Pattern, Subst};
use std::alloc::AllocError;

/// Puts the line of an axiom or a goal.
pub fn put_item(out: &mut Vec<u8>, what: &[u8], name: &Word) -> Result<(), AllocError> {
    put(out, what)?;
    put(out, name.as_str().as_bytes())?;
    put(out, b"\n")
}

/// Puts the line of a trigger.
fn put_trigger(out: &mut Vec<u8>, signature: &Signature, terms: &[Term]) -> Result<(), AllocError> {
    put(out, b"  trigger")?;
    for term in terms {
        put(out, b" ")?;
        put_term(out, signature, term)?;
    }
    put(out, b"\n")
}

/// Puts the lines of triggers.
pub fn put_triggers(
    out: &mut Vec<u8>,
    signature: &Signature,
    patterns: &[Pattern],
) -> Result<(), AllocError> {
    for pattern in patterns {
        put_trigger(out, signature, pattern.terms.as_slice())?;
    }
    Ok(())
}

/// Puts the term of a name.
fn put_name(
    out: &mut Vec<u8>,
    signature: &Signature,
    store: &Store,
    name: Name,
) -> Result<(), AllocError> {
    if name >= store.len() {
        return put(out, b" none");
    }
    let term = store.term(name)?;
    put(out, b" ")?;
    put_term(out, signature, &term)
}

/// Puts the terms of names.
fn put_names(
    out: &mut Vec<u8>,
    signature: &Signature,
    store: &Store,
    names: &[Name],
) -> Result<(), AllocError> {
    for name in names {
        put_name(out, signature, store, *name)?;
    }
    Ok(())
}

/// Puts a rule's name, the number of its trigger and the bound of generations.
fn put_place(out: &mut Vec<u8>, rule: &Word, trigger: usize, below: u32) -> Result<(), AllocError> {
    put(out, b"    ")?;
    put(out, rule.as_str().as_bytes())?;
    put(out, b" ")?;
    put_number(out, trigger)?;
    put(out, b" below ")?;
    put_number(out, below as usize)?;
    put(out, b":")
}

/// Puts the line of a match.
pub fn put_match(
    out: &mut Vec<u8>,
    signature: &Signature,
    store: &Store,
    rule: &Word,
    trigger: usize,
    below: u32,
    subst: &Subst,
    first: bool,
) -> Result<(), AllocError> {
    put_place(out, rule, trigger, below)?;
    if !subst.sorts.is_empty() {
        put(out, b" [")?;
        put_sorts(out, signature, subst.sorts.as_slice())?;
    }
    put_names(out, signature, store, subst.terms.as_slice())?;
    if first {
        put(out, b", new\n")
    } else {
        put(out, b", again\n")
    }
}
