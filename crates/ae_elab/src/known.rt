//! The declarations so far, with an index of their names.

ghost use Rattle.std.specs.Prelude.{◌≡◌, ◌++◌, ◌∷◌, [], List, ℕ, map, OnOk, OnErr};
ghost use Rattle.ae_core.specs.declared.problems.FieldEntry.{FieldEntry};
ghost use Rattle.ae_core.specs.declared.problems.Kind.TheVariants.{Fields};
ghost use Rattle.ae_core.specs.declared.problems.Signature.{Signature};
ghost use Rattle.ae_core.specs.declared.problems.TypeEntry.{TypeEntry};
ghost use Rattle.ae_core.specs.Signatures.{fields_of};
ghost use Rattle.ae_core.specs.Sorts as sort;
ghost use Rattle.ae_elab.specs.Declarations as declared;
ghost use Rattle.ae_elab.specs.Inner.Index.{IsFieldIndex};
ghost use Rattle.ae_elab.specs.Scope as scope;

use crate::fields::FieldPlace;
use crate::names::Names;
use ae_core::lists::{List, at};
use ae_core::problems::{FieldEntry, Kind, Signature, SymbolEntry, TypeEntry};
use std::alloc::{AllocError, Global};
use std::marker::Model;

/// The declarations so far, and an index of their names. `fields` and `places` are the fields of all record types.
#[derive(Drop)]
pub struct Known<'a> {
    signature: Signature,
    types: Names<'a>,
    symbols: Names<'a>,
    fields: Names<'a>,
    places: List<FieldPlace>,
}

impl<'a> Model for Known<'a> {
    ghost use Rattle.std.specs.Prelude.{◌≡◌, map};
    ghost use Rattle.std.specs.Coded.{codes};
    ghost use Rattle.ae_core.specs.contracts.terms.Sort as sort_contract;
    ghost use Rattle.ae_core.specs.declared.problems.Signature.{Signature};
    ghost use Rattle.ae_elab.specs.Inner.Index.{IsFieldIndex};

    ghost Value = { Signature };

    ghost coded = { Prim.hlevel (codes, sort_contract.the_row.coded) };

    ghost view = { λ k. k.signature };

    ghost invariant = { λ k. (map (λ e. e.name) k.signature.types ≡ k.types) × (map (λ e. e.name) k.signature.symbols ≡ k.symbols) × IsFieldIndex k.signature.types k.fields k.places };
}

// Drops the last element.
fn drop_last<T: Drop>(items: &mut List<T>)
    ensures { (kept : List T) (last : T) → items.old ≡ kept ++ last ∷ [] → items.new ≡ kept }
{
    match items.pop() {
        Some(_last) => {}
        None => {}
    }
}

// One more field of the last type, where this is a record type. After want of memory nothing is known of the lists.
fn add_field<'a>(
    types: &mut List<TypeEntry>,
    names: &mut Names<'a>,
    places: &mut List<FieldPlace>,
    name: &'a str,
    field: FieldEntry,
) -> Result<(), AllocError>
    requires name { field.name ≡ name.now }
    requires index { IsFieldIndex types.old names.old places.old }
    ensures field { (before : List TypeEntry) (own : List ℕ) (arity : ℕ) (got : List FieldEntry) → types.old ≡ before ++ declared.type_entry own arity (Fields got) ∷ [] → OnOk result (types.new ≡ before ++ declared.type_entry own arity (Fields (got ++ field ∷ [])) ∷ []) }
    ensures index { OnOk result (IsFieldIndex types.new names.new places.new) }
    ensures names { OnOk result (map (λ e. e.name) types.new ≡ map (λ e. e.name) types.old) }
{
    let Some(entry) = types.pop() else {
        return Ok(());
    };
    let of = types.len();
    let TypeEntry {
        name: own,
        arity,
        kind,
    } = entry;
    match kind {
        Kind::Fields(mut fields) => {
            places.push(FieldPlace {
                of,
                place: fields.len(),
            })?;
            names.push(name)?;
            fields.push(field)?;
            types.push(TypeEntry {
                name: own,
                arity,
                kind: Kind::Fields(fields),
            })
        }
        other => types.push(TypeEntry {
            name: own,
            arity,
            kind: other,
        }),
    }
}

impl<'a> Known<'a> {
    /// Nothing is declared.
    pub fn new(alloc: Global) -> Known<'a>
        ensures { result ≡ declared.no_declarations }
    {
        Known {
            signature: Signature {
                types: List::new(alloc),
                symbols: List::new(alloc),
            },
            types: Names::new(alloc),
            symbols: Names::new(alloc),
            fields: Names::new(alloc),
            places: List::new(alloc),
        }
    }

    /// What is declared.
    pub fn signature(&self) -> &Signature
        ensures { result.now ≡ self.now }
    {
        &self.signature
    }

    /// The number of the type of a name.
    pub fn type_number(&self, name: &'a str) -> Option<usize>
        ensures { result ≡ scope.type_number self.now name.now }
    {
        self.types.number_of(name)
    }

    /// The number of the symbol of a name.
    pub fn symbol_number(&self, name: &'a str) -> Option<usize>
        ensures { result ≡ scope.symbol_number self.now name.now }
    {
        self.symbols.number_of(name)
    }

    /// The record type that has a field of a name, and its place for the field.
    pub fn field_place(&self, name: &'a str) -> Option<FieldPlace>
        ensures { result ≡ scope.field_place self.now name.now }
    {
        match self.fields.number_of(name) {
            Some(number) => at(self.places.as_slice(), number).copied(),
            None => None,
        }
    }

    /// Whether there is a type of this number, with so many parameters.
    pub fn type_fits(&self, number: usize, count: usize) -> bool
        ensures { result ≡ sort.type_fits self.now number count }
    {
        match self.signature.types.as_slice().get(number) {
            Some(entry) => entry.arity == count,
            None => false,
        }
    }

    /// A type behind the others, without fields: those come by `push_field`. `name` is its name in the text.
    pub fn push_type(&mut self, name: &'a str, entry: TypeEntry) -> Result<(), AllocError>
        requires name { entry.name ≡ name.now }
        requires fields { fields_of entry ≡ [] }
        ensures types { OnOk result (self.new ≡ declared.with_types self.old (entry ∷ [])) }
    {
        self.signature.types.push(entry)?;
        match self.types.push(name) {
            Ok(()) => Ok(()),
            Err(error) => {
                drop_last(&mut self.signature.types);
                Err(error)
            }
        }
    }

    /// One more field of the last type, where this is a record type. `name` is its name in the text. After want of
    /// memory nothing is declared.
    pub fn push_field(
        &mut self,
        alloc: Global,
        name: &'a str,
        field: FieldEntry,
    ) -> Result<(), AllocError>
        requires name { field.name ≡ name.now }
        ensures field { (before : Signature) (own : List ℕ) (arity : ℕ) (got : List FieldEntry) → self.old ≡ declared.with_types before (declared.type_entry own arity (Fields got) ∷ []) → OnOk result (self.new ≡ declared.with_types before (declared.type_entry own arity (Fields (got ++ field ∷ [])) ∷ [])) }
        ensures err { OnErr result (self.new ≡ declared.no_declarations) }
    {
        match add_field(
            &mut self.signature.types,
            &mut self.fields,
            &mut self.places,
            name,
            field,
        ) {
            Ok(()) => Ok(()),
            Err(error) => {
                *self = Known::new(alloc);
                Err(error)
            }
        }
    }

    /// A symbol behind the others. `name` is its name in the text.
    pub fn push_symbol(&mut self, name: &'a str, entry: SymbolEntry) -> Result<(), AllocError>
        requires name { entry.name ≡ name.now }
        ensures symbols { OnOk result (self.new ≡ declared.with_symbols self.old (entry ∷ [])) }
    {
        self.signature.symbols.push(entry)?;
        match self.symbols.push(name) {
            Ok(()) => Ok(()),
            Err(error) => {
                drop_last(&mut self.signature.symbols);
                Err(error)
            }
        }
    }
}
