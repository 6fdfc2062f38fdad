//! Type variables that are numbered in their order.

ghost use Rattle.std.specs.Prelude.{◌≡◌, ◌++◌, ◌∷◌, [], List, ℕ, Some, length, cond, OnOk, OnErr};
ghost use Rattle.std.specs.BTreeMap.{get};
ghost use Rattle.std.specs.Ordering.{is_eq, nat_cmp};
ghost use Rattle.ae_core.specs.declared.terms.Sort.{Sort, Var, Rigid};
ghost use Rattle.ae_core.specs.Sorts.{same_sort};
ghost use Rattle.ae_elab.specs.Numbering as rule;
ghost use Rattle.ae_elab.specs.Scope.{first_place};

use ae_core::lists::List;
use ae_core::terms::Sort;
use std::alloc::{AllocError, Global};
use std::collections::BTreeMap;
use std::marker::Model;

/// Type variables, each once, in an order of their own: those that a typing leaves open, and written ones. A variable's
/// number is its place, from 0.
#[derive(Drop)]
pub struct Variables {
    sorts: List<Sort>,
    unknown: BTreeMap<usize, usize>,
    written: BTreeMap<usize, usize>,
}

impl Model for Variables {
    ghost use Rattle.std.specs.Prelude.{List};
    ghost use Rattle.std.specs.Coded.{codes};
    ghost use Rattle.std.specs.BTreeMap.{get};
    ghost use Rattle.std.specs.Ordering.{nat_cmp};
    ghost use Rattle.ae_core.specs.contracts.terms.Sort as sort_contract;
    ghost use Rattle.ae_core.specs.declared.terms.Sort.{Sort, Var, Rigid};
    ghost use Rattle.ae_elaboration.specs.Inner.Tables.{Finds};

    ghost Value = { List Sort };

    ghost coded = { Prim.hlevel (codes, sort_contract.the_row.coded) };

    ghost view = { λ v. v.sorts };

    ghost invariant = { λ v. Finds Var v.sorts (get nat_cmp v.unknown) × Finds Rigid v.sorts (get nat_cmp v.written) };
}

// Drops the last sort.
fn drop_last(sorts: &mut List<Sort>)
    ensures { (kept : List Sort) (last : Sort) → sorts.old ≡ kept ++ last ∷ [] → sorts.new ≡ kept }
{
    match sorts.pop() {
        Some(_last) => {}
        None => {}
    }
}

// A variable behind the others, with its number under a key.
fn push_at(
    sorts: &mut List<Sort>,
    numbers: &mut BTreeMap<usize, usize>,
    key: usize,
    sort: Sort,
) -> Result<(), AllocError>
    ensures sorts { OnOk result (sorts.new ≡ sorts.old ++ sort ∷ []) }
    ensures numbers { OnOk result ((n : ℕ) → get nat_cmp numbers.new n ≡ cond (is_eq (nat_cmp key n)) (Some (length sorts.old)) (get nat_cmp numbers.old n)) }
    ensures err { OnErr result (sorts.new ≡ sorts.old) }
    ensures same { OnErr result ((n : ℕ) → get nat_cmp numbers.new n ≡ get nat_cmp numbers.old n) }
{
    let place = sorts.len();
    sorts.push(sort)?;
    match numbers.insert(key, place) {
        Ok(_) => Ok(()),
        Err(failed) => {
            drop_last(sorts);
            Err(AllocError::from(failed))
        }
    }
}

impl Variables {
    /// No variables.
    pub fn new(alloc: Global) -> Variables
        ensures { result ≡ [] }
    {
        Variables {
            sorts: List::new(alloc),
            unknown: BTreeMap::new(alloc),
            written: BTreeMap::new(alloc),
        }
    }

    /// How many variables there are.
    pub fn len(&self) -> usize
        ensures { result ≡ length self.now }
    {
        self.sorts.len()
    }

    /// The number of a variable that a typing leaves open.
    pub fn unknown_number(&self, variable: usize) -> Option<usize>
        ensures { result ≡ first_place (same_sort (Var variable)) self.now }
    {
        self.unknown.get(&variable).copied()
    }

    /// The number of a written variable.
    pub fn written_number(&self, variable: usize) -> Option<usize>
        ensures { result ≡ first_place (same_sort (Rigid variable)) self.now }
    {
        self.written.get(&variable).copied()
    }

    /// A variable that a typing leaves open, behind the others if it isn't there.
    pub fn push_unknown(&mut self, variable: usize) -> Result<(), AllocError>
        ensures { OnOk result (self.new ≡ rule.once_more self.old (Var variable ∷ [])) }
    {
        match self.unknown_number(variable) {
            Some(_number) => Ok(()),
            None => {
                push_at(
                    &mut self.sorts,
                    &mut self.unknown,
                    variable,
                    Sort::Var(variable),
                )?;
                Ok(())
            }
        }
    }

    /// A written variable, behind the others if it isn't there.
    pub fn push_written(&mut self, variable: usize) -> Result<(), AllocError>
        ensures { OnOk result (self.new ≡ rule.once_more self.old (Rigid variable ∷ [])) }
    {
        match self.written_number(variable) {
            Some(_number) => Ok(()),
            None => {
                push_at(
                    &mut self.sorts,
                    &mut self.written,
                    variable,
                    Sort::Rigid(variable),
                )?;
                Ok(())
            }
        }
    }
}
