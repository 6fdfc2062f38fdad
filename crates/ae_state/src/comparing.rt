//! Which names are the same.
ghost use Rattle.std.specs.Prelude.{◌≡◌, ◌↔◌, ◌<◌, ◌++◌, ◌∷◌, [], ℕ, length, if◌then◌else◌, IsTrue, IfOk, OnOk};
ghost use Rattle.std.specs.List.{Contains};
ghost use Rattle.ae_theory.specs.Names.{IsOrdered};
ghost use Rattle.ae_value_table.specs.Alike.{alike};

use crate::holding::Holding;
use ae_core::lists::List;
use ae_num::forms::Name;
use ae_store::store::Store;
use std::alloc::{AllocError, Global};

/// Adds a number where it passes.
fn push_where(numbers: &mut List<usize>, passes: bool, number: usize) -> Result<(), AllocError>
    ensures { OnOk result (numbers.new ≡ (if passes then numbers.old ++ number ∷ [] else numbers.old)) }
{
    if passes {
        numbers.push(number)?;
    }
    Ok(())
}

impl Holding {
    /// Whether two names are one, or have one sort and one value. It takes no memory.
    pub fn same(&self, left: Name, right: Name) -> bool
        ensures { result ≡ alike self.now.values left right }
    {
        self.values.same(left, right)
    }

    /// The names of the store that are the same as this one, rising.
    pub fn equals(&self, alloc: Global, store: &Store, name: Name) -> Result<List<Name>, AllocError>
        requires within { name < length store.now.nodes }
        ensures all { IfOk result (λ ns. (n : ℕ) → n < length store.now.nodes → (Contains ns n ↔ IsTrue (alike self.now.values name n))) }
        ensures rising { IfOk result IsOrdered }
    {
        let mut names = List::new(alloc);
        for other in 0..store.len() {
            push_where(&mut names, self.same(name, other), other)?;
        }
        Ok(names)
    }
}
