//! Bindings with more in them.
ghost use Rattle.std.specs.Prelude.{◌≡◌, ◌∷◌, [], IfOk};
ghost use Rattle.ae_matching.specs.Generating as spec;

use ae_core::lists::List;
use ae_matching::bindings::{Bindings, NameBinding};
use ae_matching::sorts::{SortBinding, copy_bindings};
use ae_num::forms::Name;
use std::alloc::{AllocError, Global};

/// The same names.
pub fn copy_names(alloc: Global, names: &[NameBinding]) -> Result<List<NameBinding>, AllocError>
    ensures { IfOk result (λ copy. copy ≡ names.now) }
{
    let mut copies = List::new(alloc);
    for binding in names {
        copies.push(NameBinding {
            variable: binding.variable,
            name: binding.name,
            exact: binding.exact,
        })?;
    }
    Ok(copies)
}

/// These bindings alone.
pub fn one(alloc: Global, bindings: &Bindings) -> Result<List<Bindings>, AllocError>
    ensures { IfOk result (λ bs. bs ≡ bindings.now ∷ []) }
{
    let sorts = copy_bindings(alloc, bindings.sorts.as_slice())?;
    let names = copy_names(alloc, bindings.names.as_slice())?;
    let mut found = List::new(alloc);
    found.push(Bindings { sorts, names })?;
    Ok(found)
}

/// The bindings with other sorts.
pub fn with_sorts(
    alloc: Global,
    bindings: &Bindings,
    sorts: List<SortBinding>,
) -> Result<Bindings, AllocError>
    ensures { IfOk result (λ b. b ≡ spec.with_sorts bindings.now sorts) }
{
    let names = copy_names(alloc, bindings.names.as_slice())?;
    Ok(Bindings { sorts, names })
}

/// The bindings with a name for one variable more, alone.
pub fn one_named(
    alloc: Global,
    bindings: &Bindings,
    variable: usize,
    exact: bool,
    name: Name,
) -> Result<List<Bindings>, AllocError>
    ensures { IfOk result (λ bs. bs ≡ spec.with_name bindings.now variable exact name ∷ []) }
{
    let sorts = copy_bindings(alloc, bindings.sorts.as_slice())?;
    let mut names = copy_names(alloc, bindings.names.as_slice())?;
    names.push(NameBinding {
        variable,
        name,
        exact,
    })?;
    let mut found = List::new(alloc);
    found.push(Bindings { sorts, names })?;
    Ok(found)
}

/// The name found for a variable.
pub fn name_found(variable: usize, names: &[NameBinding]) -> Option<Name>
    ensures { result ≡ spec.name_found variable names.now }
{
    for binding in names {
        if binding.variable == variable {
            return Some(binding.name);
        }
    }
    None
}

/// The name found for a variable that is to have this very one.
pub fn exact_found(variable: usize, names: &[NameBinding]) -> Option<Name>
    ensures { result ≡ spec.exact_found variable names.now }
{
    for binding in names {
        if binding.variable == variable && binding.exact {
            return Some(binding.name);
        }
    }
    None
}

/// A variable is given this very name.
pub fn bind_exact(
    alloc: Global,
    variable: usize,
    name: Name,
    bindings: &Bindings,
) -> Result<List<Bindings>, AllocError>
    ensures { IfOk result (λ bs. bs ≡ spec.bind_exact variable name bindings.now (spec.exact_found variable bindings.now.names)) }
{
    match exact_found(variable, bindings.names.as_slice()) {
        None => one_named(alloc, bindings, variable, true, name),
        Some(found) => {
            if found == name {
                one(alloc, bindings)
            } else {
                Ok(List::new(alloc))
            }
        }
    }
}
