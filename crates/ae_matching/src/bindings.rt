//! The bindings under which the terms of a trigger may equal names.
use crate::sorts::SortBinding;
use ae_core::lists::List;
use ae_num::forms::Name;

/// A name for a variable, by its distance: this very name where it is exact, one that is the same otherwise.
#[derive(Drop)]
pub struct NameBinding {
    pub variable: usize,
    pub name: Name,
    pub exact: bool,
}

/// What is found so far: sorts for type variables and names for variables, the first found first.
#[derive(Drop)]
pub struct Bindings {
    pub sorts: List<SortBinding>,
    pub names: List<NameBinding>,
}
