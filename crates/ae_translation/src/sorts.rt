//! Sorts under a typing.

ghost use Rattle.std.specs.Prelude.{◌≡◌, map, IfOk};
ghost use Rattle.ae_core.specs.declared.terms.Sort.{out-Sort};
ghost use Rattle.ae_elab.specs.Elaboration as rule;
ghost use Rattle.ae_types.specs.Bound.{bound};
ghost use Rattle.ae_types.specs.Substitutions.{put};

use ae_core::lists::List;
use ae_core::terms::{Head, Op, Sort};
use ae_types::Bindings;
use std::alloc::{AllocError, Global};

/// Sorts as a typing has them.
pub fn put_all(alloc: Global, bindings: &Bindings, sorts: &[Sort]) -> Result<List<Sort>, AllocError>
    ensures { IfOk result (λ ss. ss ≡ map (put (bound bindings.now)) sorts.now) }
{
    let mut all = List::new(alloc);
    for sort in sorts {
        let next = bindings.apply(sort)?;
        all.push(next)?;
    }
    Ok(all)
}

// The head of an operation on numbers of a sort.
fn head_on(op: Op, sort: &Sort) -> Head
    ensures { result ≡ rule.head_on op (out-Sort sort.now) }
{
    match sort {
        Sort::Real => Head::Real(op),
        _ => Head::Int(op),
    }
}

/// The head of an operation on numbers of the sort that a typing puts.
pub fn head_of(bindings: &Bindings, op: Op, sort: &Sort) -> Result<Head, AllocError>
    ensures { IfOk result (λ h. h ≡ rule.head_on op (out-Sort (put (bound bindings.now) sort.now))) }
{
    let sort = bindings.apply(sort)?;
    Ok(head_on(op, &sort))
}
