//! Sorts as the line of a fault shows them.

ghost use Rattle.std.specs.Prelude.{◌≡◌, ◌++◌, map, codes, decimal, OnOk};
ghost use Rattle.std.specs.List.{AllByRecursion};
ghost use Rattle.ae_core.specs.declared.terms.Sort.{Named};
ghost use Rattle.ae_elab.specs.Names.{IsName};
ghost use Rattle.ae_elab.specs.Scope.{name_in};
ghost use Rattle.ae_fault_lines.specs.Lines.{shown_text};
ghost use Rattle.ae_fault_lines.specs.Inner.Pieces.{compound_bytes, spaced_sorts};

use crate::types::put_type_name;
use ae_core::terms::Sort;
use ae_prooftext::{put, put_number};
use ae_syntax::spans::Span;
use std::alloc::AllocError;

// Puts a written type variable.
fn put_written(out: &mut Vec<u8>, number: usize) -> Result<(), AllocError>
    ensures { OnOk result (out.new.items ≡ out.old.items ++ (codes "'" ++ decimal number)) }
{
    put(out, b"'")?;
    put_number(out, number)
}

/// Puts a sort at the end, with `_` for what is undetermined.
#[cycle(put_shown)]
#[tactic(auto, using(crate::proofs::ShownRules::shown_rules))]
pub fn put_shown(
    out: &mut Vec<u8>,
    text: &[u8],
    types: &[Span],
    sort: &Sort,
) -> Result<(), AllocError>
    requires names { AllByRecursion (IsName text.now) types.now }
    ensures { OnOk result (out.new.items ≡ out.old.items ++ shown_text (map (name_in text.now) types.now) sort.now) }
{
    match sort {
        Sort::Var(_) => put(out, b"_"),
        Sort::Rigid(number) => put_written(out, *number),
        Sort::Int => put(out, b"int"),
        Sort::Real => put(out, b"real"),
        Sort::Bool => put(out, b"bool"),
        Sort::Unit => put(out, b"unit"),
        Sort::Named { head, args } => put_named(out, text, types, *head, args.as_slice()),
    }
}

// Puts a declared type with its arguments.
#[cycle(put_shown)]
#[tactic(auto, using(crate::proofs::ShownRules::shown_lone, crate::proofs::ShownRules::shown_named))]
fn put_named(
    out: &mut Vec<u8>,
    text: &[u8],
    types: &[Span],
    head: usize,
    args: &[Sort],
) -> Result<(), AllocError>
    requires names { AllByRecursion (IsName text.now) types.now }
    ensures { OnOk result (out.new.items ≡ out.old.items ++ shown_text (map (name_in text.now) types.now) (Named head args.now)) }
{
    match args.split_first() {
        None => put_type_name(out, text, types, head),
        Some(_) => put_compound(out, text, types, head, args),
    }
}

// Puts a declared type and one or more arguments, in brackets.
#[cycle(put_shown)]
fn put_compound(
    out: &mut Vec<u8>,
    text: &[u8],
    types: &[Span],
    head: usize,
    args: &[Sort],
) -> Result<(), AllocError>
    requires names { AllByRecursion (IsName text.now) types.now }
    ensures { OnOk result (out.new.items ≡ out.old.items ++ compound_bytes (map (name_in text.now) types.now) head args.now) }
{
    put(out, b"(")?;
    put_type_name(out, text, types, head)?;
    put_spaced(out, text, types, args)?;
    put(out, b")")
}

// Puts sorts, with a blank before each.
#[cycle(put_shown)]
fn put_spaced(
    out: &mut Vec<u8>,
    text: &[u8],
    types: &[Span],
    sorts: &[Sort],
) -> Result<(), AllocError>
    requires names { AllByRecursion (IsName text.now) types.now }
    ensures { OnOk result (out.new.items ≡ out.old.items ++ spaced_sorts (map (name_in text.now) types.now) sorts.now) }
{
    for sort in sorts {
        put(out, b" ")?;
        put_shown(out, text, types, sort)?;
    }
    Ok(())
}
