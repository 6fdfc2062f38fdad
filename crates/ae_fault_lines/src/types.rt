//! The types of a file and their names.

ghost use Rattle.std.specs.Prelude.{◌≡◌, ◌++◌, map, IfOk, OnOk};
ghost use Rattle.std.specs.List.{AllByRecursion};
ghost use Rattle.ae_elab.specs.Names.{IsName};
ghost use Rattle.ae_elab.specs.Scope.{name_in};
ghost use Rattle.ae_fault_lines.specs.Lines.{type_places};
ghost use Rattle.ae_fault_lines.specs.Inner.Pieces.{place_in};
ghost use Rattle.ae_prooftext.specs.Texts.{get};

use ae_core::lists::{List, at};
use ae_elab::names::name_at;
use ae_prooftext::put;
use ae_syntax::decls::{DeclKind, File};
use ae_syntax::spans::Span;
use std::alloc::{AllocError, Global};

// Where the name of a declared type stands.
fn type_place(kind: &DeclKind) -> Option<Span>
    ensures { place_in kind.now result }
{
    match kind {
        DeclKind::Type { name, .. } => Some(*name),
        DeclKind::Enumeration { name, .. } => Some(*name),
        DeclKind::Logic { .. } => None,
        DeclKind::Function { .. } => None,
        DeclKind::Predicate { .. } => None,
        DeclKind::Axiom { .. } => None,
        DeclKind::Goal { .. } => None,
    }
}

/// Where the names of a file's types stand, in their order: a type's number is its place here.
pub fn places_of(alloc: Global, file: &File) -> Result<List<Span>, AllocError>
    ensures { IfOk result (λ places. places ≡ type_places file.now.decls) }
{
    let mut places = List::new(alloc);
    for decl in file.decls.as_slice() {
        if let Some(place) = type_place(&decl.kind) {
            places.push(place)?;
        }
    }
    Ok(places)
}

/// Puts the name of the type of this number at the end; nothing where there is none.
pub fn put_type_name(
    out: &mut Vec<u8>,
    text: &[u8],
    types: &[Span],
    number: usize,
) -> Result<(), AllocError>
    requires names { AllByRecursion (IsName text.now) types.now }
    ensures { OnOk result (out.new.items ≡ out.old.items ++ get (map (name_in text.now) types.now) number) }
{
    match at(types, number) {
        Some(place) => put(out, name_at(text, *place).as_bytes()),
        None => Ok(()),
    }
}
