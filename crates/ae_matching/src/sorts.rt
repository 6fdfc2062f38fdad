//! Sorts found for type variables.
ghost use Rattle.std.specs.Prelude.{◌≡◌, ◌++◌, ◌∷◌, [], map, IfOk, Some, ◌<◌};
ghost use Rattle.ae_matching.specs.SortMatching as spec;

use ae_core::copies::copy_sort;
use ae_core::lists::List;
use ae_core::sorts::is_sort;
use ae_core::terms::Sort;
use std::alloc::{AllocError, Global};

/// A sort for a type variable.
#[derive(Drop)]
pub struct SortBinding {
    pub variable: usize,
    pub sort: Sort,
}

/// The same bindings.
pub fn copy_bindings(
    alloc: Global,
    bindings: &[SortBinding],
) -> Result<List<SortBinding>, AllocError>
    ensures { IfOk result (λ copy. copy ≡ bindings.now) }
{
    let mut copies = List::new(alloc);
    for binding in bindings {
        copies.push(SortBinding {
            variable: binding.variable,
            sort: copy_sort(alloc, &binding.sort)?,
        })?;
    }
    Ok(copies)
}

/// Whether the sort found for a variable is this one, where there is one.
fn is_bound(variable: usize, sort: &Sort, bindings: &[SortBinding]) -> Option<bool>
    ensures { result ≡ spec.is_bound sort.now (spec.found variable bindings.now) }
{
    for binding in bindings {
        if binding.variable == variable {
            return Some(is_sort(&binding.sort, sort));
        }
    }
    None
}

/// The bindings with a variable's sort; none where it has another.
fn bind(
    alloc: Global,
    variable: usize,
    sort: &Sort,
    bindings: List<SortBinding>,
) -> Result<Option<List<SortBinding>>, AllocError>
    ensures { IfOk result (λ o. o ≡ spec.bind variable sort.now bindings) }
{
    match is_bound(variable, sort, bindings.as_slice()) {
        Some(true) => Ok(Some(bindings)),
        Some(false) => Ok(None),
        None => {
            let mut more = bindings;
            more.push(SortBinding {
                variable,
                sort: copy_sort(alloc, sort)?,
            })?;
            Ok(Some(more))
        }
    }
}

/// The bindings with the sorts by which a pattern's sort becomes this one, behind what is there; none where there are none.
#[cycle(match_sort)]
#[tactic(auto, using(crate::proofs::SortLaws::match_rules))]
pub fn match_sort(
    alloc: Global,
    pattern: &Sort,
    sort: &Sort,
    bindings: List<SortBinding>,
) -> Result<Option<List<SortBinding>>, AllocError>
    ensures { IfOk result (λ o. o ≡ spec.match_sort pattern.now sort.now bindings) }
{
    match pattern {
        Sort::Var(i) => bind(alloc, *i, sort, bindings),
        Sort::Named { head, args } => match sort {
            Sort::Named {
                head: other,
                args: sorts,
            } => {
                if head != other {
                    return Ok(None);
                }
                match_sorts(alloc, args.as_slice(), sorts.as_slice(), bindings)
            }
            _ => Ok(None),
        },
        Sort::Rigid(_) => Ok(Some(bindings)),
        Sort::Int => Ok(Some(bindings)),
        Sort::Real => Ok(Some(bindings)),
        Sort::Bool => Ok(Some(bindings)),
        Sort::Unit => Ok(Some(bindings)),
    }
}

/// The same for two lists of sorts.
#[cycle(match_sort)]
pub fn match_sorts(
    alloc: Global,
    patterns: &[Sort],
    sorts: &[Sort],
    bindings: List<SortBinding>,
) -> Result<Option<List<SortBinding>>, AllocError>
    ensures { IfOk result (λ o. o ≡ spec.match_sorts patterns.now sorts.now bindings) }
{
    if patterns.len() != sorts.len() {
        return Ok(None);
    }
    let mut found = bindings;
    for i in 0..patterns.len() {
        match match_sort(alloc, &patterns[i], &sorts[i], found)? {
            None => return Ok(None),
            Some(more) => found = more,
        }
    }
    Ok(Some(found))
}
