//! The line by which a text without a typing is refused.

ghost use Rattle.std.specs.Prelude.{◌≡◌, ◌++◌, ◌≤◌, map, length, codes, decimal, IfOk, IfSome, OnOk};
ghost use Rattle.std.specs.List.{AllByRecursion};
ghost use Rattle.ae_elab.specs.Names.{IsName, names_in_file};
ghost use Rattle.ae_elab.specs.Scope.{name_in};
ghost use Rattle.ae_fault_lines.specs.Lines.{IsFaultLine, fault_place, fault_words, shown_text};

use crate::sorts::put_shown;
use crate::types::places_of;
use ae_core::terms::Sort;
use ae_core::words::Word;
use ae_elab::TypeFault;
use ae_prooftext::{put, put_number};
use ae_report::{Place, place_of};
use ae_syntax::decls::File;
use ae_syntax::spans::Span;
use std::alloc::{AllocError, Global};

// The first byte of a fault's place.
fn place(fault: &TypeFault) -> Option<usize>
    ensures { result ≡ fault_place fault.now }
{
    match fault {
        TypeFault::UnknownName { from, .. } => Some(*from),
        TypeFault::Arity { from, .. } => Some(*from),
        TypeFault::Mismatch { from, .. } => Some(*from),
        TypeFault::Twice { from, .. } => Some(*from),
        TypeFault::NotProp { from, .. } => Some(*from),
        TypeFault::PropInTerm { from, .. } => Some(*from),
        TypeFault::BadAc { from, .. } => Some(*from),
        TypeFault::MissingField { from, .. } => Some(*from),
        TypeFault::SelfRecord { from, .. } => Some(*from),
        TypeFault::BadTrigger { from, .. } => Some(*from),
        TypeFault::TooLarge { from, .. } => Some(*from),
        TypeFault::Memory(_) => None,
    }
}

// Puts a line and a column, and a blank.
fn put_place(out: &mut Vec<u8>, place: Place) -> Result<(), AllocError>
    ensures { OnOk result (out.new.items ≡ out.old.items ++ (decimal place.line ++ codes ":" ++ decimal place.column ++ codes " ")) }
{
    put_number(out, place.line)?;
    put(out, b":")?;
    put_number(out, place.column)?;
    put(out, b" ")
}

// Puts words with the name that they speak of.
fn put_name(out: &mut Vec<u8>, words: &[u8], name: &Word) -> Result<(), AllocError>
    ensures { OnOk result (out.new.items ≡ out.old.items ++ (words.now ++ name.now)) }
{
    put(out, words)?;
    put(out, name.as_str().as_bytes())
}

// Puts two sorts that can't be one.
fn put_mismatch(
    out: &mut Vec<u8>,
    text: &[u8],
    types: &[Span],
    left: &Sort,
    right: &Sort,
) -> Result<(), AllocError>
    requires names { AllByRecursion (IsName text.now) types.now }
    ensures { OnOk result (out.new.items ≡ out.old.items ++ (codes "mismatch " ++ shown_text (map (name_in text.now) types.now) left.now
        ++ codes " " ++ shown_text (map (name_in text.now) types.now) right.now)) }
{
    put(out, b"mismatch ")?;
    put_shown(out, text, types, left)?;
    put(out, b" ")?;
    put_shown(out, text, types, right)
}

// Puts what a fault says.
fn put_words(
    out: &mut Vec<u8>,
    text: &[u8],
    types: &[Span],
    fault: &TypeFault,
) -> Result<(), AllocError>
    requires names { AllByRecursion (IsName text.now) types.now }
    ensures { OnOk result (out.new.items ≡ out.old.items ++ fault_words (map (name_in text.now) types.now) fault.now) }
{
    match fault {
        TypeFault::UnknownName { name, .. } => put_name(out, b"unknown name ", name),
        TypeFault::Arity { .. } => put(out, b"arity"),
        TypeFault::Mismatch { left, right, .. } => put_mismatch(out, text, types, left, right),
        TypeFault::Twice { name, .. } => put_name(out, b"twice ", name),
        TypeFault::NotProp { .. } => put(out, b"not a formula"),
        TypeFault::PropInTerm { .. } => put(out, b"formula in a term"),
        TypeFault::BadAc { .. } => put(out, b"bad ac"),
        TypeFault::MissingField { .. } => put(out, b"missing field"),
        TypeFault::SelfRecord { .. } => put(out, b"self record"),
        TypeFault::BadTrigger { .. } => put(out, b"bad trigger"),
        TypeFault::TooLarge { .. } => put(out, b"too large"),
        TypeFault::Memory(_) => put(out, b"out of memory"),
    }
}

/// The line by which a text is refused that is the file's and has no problem: `refused`, the line and the column of the
/// fault's place, and why. A sort names its types as the file does, with `_` for what is undetermined and `'` with a number
/// for a written type variable. Want of memory is no refusal; its line has no place.
pub fn fault_text(
    alloc: Global,
    text: &[u8],
    file: &File,
    fault: &TypeFault,
) -> Result<Vec<u8>, AllocError>
    requires names { AllByRecursion (IsName text.now) (names_in_file file.now) }
    requires within { IfSome (fault_place fault.now) (λ at. at ≤ length text.now) }
    ensures line { IfOk result (λ line. IsFaultLine text.now file.now fault.now line.items) }
{
    let types = places_of(alloc, file)?;
    let mut line = Vec::new(alloc);
    put(&mut line, b"refused ")?;
    if let Some(at) = place(fault) {
        put_place(&mut line, place_of(text, at))?;
    }
    put_words(&mut line, text, types.as_slice(), fault)?;
    put(&mut line, b"\n")?;
    Ok(line)
}
