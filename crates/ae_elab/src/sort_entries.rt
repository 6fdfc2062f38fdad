//! The sorts of a symbol's entry: its written type variables are those of the entry.

ghost use Rattle.std.specs.Prelude.{◌≡◌, map, IfOk};
ghost use Rattle.ae_elab.specs.Declarations as rule;

use ae_core::lists::List;
use ae_core::terms::Sort;
use std::alloc::{AllocError, Global};

/// The sort of an entry.
#[tactic(auto, using(crate::proofs::EntryLaws::generals))]
pub fn generalize(alloc: Global, sort: &Sort) -> Result<Sort, AllocError>
    ensures { IfOk result (λ s. s ≡ rule.generalize sort.now) }
{
    match sort {
        Sort::Var(n) => Ok(Sort::Var(*n)),
        Sort::Rigid(n) => Ok(Sort::Var(*n)),
        Sort::Int => Ok(Sort::Int),
        Sort::Real => Ok(Sort::Real),
        Sort::Bool => Ok(Sort::Bool),
        Sort::Unit => Ok(Sort::Unit),
        Sort::Named { head, args } => {
            let mut sorts = List::new(alloc);
            for arg in args.as_slice() {
                sorts.push(generalize(alloc, arg)?)?;
            }
            Ok(Sort::Named {
                head: *head,
                args: sorts,
            })
        }
    }
}

/// The sorts of an entry.
pub fn generalize_all(alloc: Global, sorts: &[Sort]) -> Result<List<Sort>, AllocError>
    ensures { IfOk result (λ ss. ss ≡ map rule.generalize sorts.now) }
{
    let mut entries = List::new(alloc);
    for sort in sorts {
        entries.push(generalize(alloc, sort)?)?;
    }
    Ok(entries)
}

/// The sort of an entry's value, which a predicate hasn't.
pub fn generalized(alloc: Global, value: &Option<Sort>) -> Result<Option<Sort>, AllocError>
    ensures { IfOk result (λ s. s ≡ rule.generalized value.now) }
{
    match value {
        None => Ok(None),
        Some(sort) => {
            let entry = generalize(alloc, sort)?;
            Ok(Some(entry))
        }
    }
}
