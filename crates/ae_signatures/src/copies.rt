//! Copies: each is equal to what it copies.

ghost use Rattle.std.specs.Prelude.{◌≡◌, IfOk};

use ae_core::copies::{copy_sort, copy_sorts};
use ae_core::lists::List;
use ae_core::problems::{FieldEntry, Kind, Signature, SymbolEntry, TypeEntry};
use ae_core::terms::Sort;
use std::alloc::{AllocError, Global};

fn copy_field(alloc: Global, field: &FieldEntry) -> Result<FieldEntry, AllocError>
    ensures { IfOk result (λ copy. copy ≡ field.now) }
{
    let name = field.name.copy(alloc)?;
    let sort = copy_sort(alloc, &field.sort)?;
    Ok(FieldEntry { name, sort })
}

fn copy_fields(alloc: Global, fields: &[FieldEntry]) -> Result<List<FieldEntry>, AllocError>
    ensures { IfOk result (λ copies. copies ≡ fields.now) }
{
    let mut copies = List::new(alloc);
    for field in fields {
        copies.push(copy_field(alloc, field)?)?;
    }
    Ok(copies)
}

fn copy_kind(alloc: Global, kind: &Kind) -> Result<Kind, AllocError>
    ensures { IfOk result (λ copy. copy ≡ kind.now) }
{
    match kind {
        Kind::Abstract => Ok(Kind::Abstract),
        Kind::Choices(numbers) => Ok(Kind::Choices(List::from_slice(alloc, numbers.as_slice())?)),
        Kind::Fields(fields) => Ok(Kind::Fields(copy_fields(alloc, fields.as_slice())?)),
    }
}

fn copy_type(alloc: Global, entry: &TypeEntry) -> Result<TypeEntry, AllocError>
    ensures { IfOk result (λ copy. copy ≡ entry.now) }
{
    let name = entry.name.copy(alloc)?;
    let kind = copy_kind(alloc, &entry.kind)?;
    Ok(TypeEntry {
        name,
        arity: entry.arity,
        kind,
    })
}

fn copy_types(alloc: Global, entries: &[TypeEntry]) -> Result<List<TypeEntry>, AllocError>
    ensures { IfOk result (λ copies. copies ≡ entries.now) }
{
    let mut copies = List::new(alloc);
    for entry in entries {
        copies.push(copy_type(alloc, entry)?)?;
    }
    Ok(copies)
}

// The sort of a symbol's value, where it has one.
fn copy_value(alloc: Global, value: &Option<Sort>) -> Result<Option<Sort>, AllocError>
    ensures { IfOk result (λ copy. copy ≡ value.now) }
{
    match value {
        None => Ok(None),
        Some(sort) => Ok(Some(copy_sort(alloc, sort)?)),
    }
}

fn copy_symbol(alloc: Global, entry: &SymbolEntry) -> Result<SymbolEntry, AllocError>
    ensures { IfOk result (λ copy. copy ≡ entry.now) }
{
    let name = entry.name.copy(alloc)?;
    let args = copy_sorts(alloc, entry.args.as_slice())?;
    let value = copy_value(alloc, &entry.result)?;
    Ok(SymbolEntry {
        name,
        vars: entry.vars,
        args,
        result: value,
        nature: entry.nature,
    })
}

fn copy_symbols(alloc: Global, entries: &[SymbolEntry]) -> Result<List<SymbolEntry>, AllocError>
    ensures { IfOk result (λ copies. copies ≡ entries.now) }
{
    let mut copies = List::new(alloc);
    for entry in entries {
        copies.push(copy_symbol(alloc, entry)?)?;
    }
    Ok(copies)
}

/// An equal signature. Its time is linear in the signature.
pub fn copy_signature(alloc: Global, signature: &Signature) -> Result<Signature, AllocError>
    ensures { IfOk result (λ copy. copy ≡ signature.now) }
{
    let types = copy_types(alloc, signature.types.as_slice())?;
    let symbols = copy_symbols(alloc, signature.symbols.as_slice())?;
    Ok(Signature { types, symbols })
}
