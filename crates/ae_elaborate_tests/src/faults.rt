//! How a fault is written.

use ae_core::terms::Sort;
use ae_core::words::Word;
use ae_elab::TypeFault;
use ae_prooftext::{put, put_number};
use std::alloc::AllocError;

/// Puts a type with its arguments.
#[cycle(sorts)]
fn put_type(out: &mut Vec<u8>, head: usize, args: &[Sort]) -> Result<(), AllocError> {
    if args.is_empty() {
        put(out, b"#")?;
        return put_number(out, head);
    }
    put(out, b"(#")?;
    put_number(out, head)?;
    for arg in args {
        put(out, b" ")?;
        put_sort(out, arg)?;
    }
    put(out, b")")
}

#[cycle(sorts)]
fn put_sort(out: &mut Vec<u8>, sort: &Sort) -> Result<(), AllocError> {
    match sort {
        Sort::Var(_) => put(out, b"_"),
        Sort::Rigid(number) => {
            put(out, b"'")?;
            put_number(out, *number)
        }
        Sort::Int => put(out, b"int"),
        Sort::Real => put(out, b"real"),
        Sort::Bool => put(out, b"bool"),
        Sort::Unit => put(out, b"unit"),
        Sort::Named { head, args } => put_type(out, *head, args.as_slice()),
    }
}

/// Puts the words of a fault and its place.
fn put_words(out: &mut Vec<u8>, words: &[u8], from: usize, to: usize) -> Result<(), AllocError> {
    put(out, words)?;
    put(out, b" at ")?;
    put_number(out, from)?;
    put(out, b" to ")?;
    put_number(out, to)?;
    put(out, b"\n")
}

/// Puts the words of a fault with a name, and its place.
fn put_named(
    out: &mut Vec<u8>,
    words: &[u8],
    name: &Word,
    from: usize,
    to: usize,
) -> Result<(), AllocError> {
    put(out, words)?;
    put_words(out, name.as_str().as_bytes(), from, to)
}

/// Puts two sorts that can't be one, and the place.
fn put_mismatch(
    out: &mut Vec<u8>,
    left: &Sort,
    right: &Sort,
    from: usize,
    to: usize,
) -> Result<(), AllocError> {
    put(out, b"mismatch ")?;
    put_sort(out, left)?;
    put(out, b" ")?;
    put_sort(out, right)?;
    put_words(out, b"", from, to)
}

/// Puts a fault.
pub fn put_fault(out: &mut Vec<u8>, fault: &TypeFault) -> Result<(), AllocError> {
    match fault {
        TypeFault::UnknownName { name, from, to } => put_named(
            out,
            b"unknown name ",
            name,
            *from,
            *to,
        ),
        TypeFault::Arity { from, to } => put_words(out, b"arity", *from, *to),
        TypeFault::Mismatch {
            left,
            right,
            from,
            to,
        } => put_mismatch(out, left, right, *from, *to),
        TypeFault::Twice { name, from, to } => put_named(out, b"twice ", name, *from, *to),
        TypeFault::NotProp { from, to } => put_words(out, b"not a formula", *from, *to),
        TypeFault::PropInTerm { from, to } => put_words(out, b"formula in a term", *from, *to),
        TypeFault::BadAc { from, to } => put_words(out, b"bad ac", *from, *to),
        TypeFault::MissingField { from, to } => put_words(out, b"missing field", *from, *to),
        TypeFault::SelfRecord { from, to } => put_words(out, b"self record", *from, *to),
        TypeFault::BadTrigger { from, to } => put_words(out, b"bad trigger", *from, *to),
        TypeFault::TooLarge { from, to } => put_words(out, b"too large", *from, *to),
        TypeFault::Memory(_) => put(out, b"memory\n"),
    }
}
