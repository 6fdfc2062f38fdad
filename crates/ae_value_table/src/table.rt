//! What is held of the values of names.
ghost use Rattle.std.specs.Prelude.{◌≡◌, ◌<◌, ◌≤◌, ◌↔◌, ℕ, [], length, slice_get, Some, None, option_copied, IsTrue, IfOk};
ghost use Rattle.ae_pmap.specs.Forest.{present};
ghost use Rattle.ae_pmap.specs.Pairs.{found};
ghost use Rattle.ae_linear.specs.Rows.{row_at, AreRows};
ghost use Rattle.ae_num.specs.Forms.{IsNormal};
ghost use Rattle.ae_value_table.specs.Table.{number_at, leaf_at, just_at, value_in, values};

use crate::patterns::{Entry, Pattern};
use ae_core::lists::List;
use ae_linear::{Row, Rows, Shared as RowsShared};
use ae_num::copies::copied;
use ae_num::forms::{Lin, Name, Value, single};
use ae_pmap::{Pmap, Version};
use std::alloc::{AllocError, Global};
use std::marker::Model;

/// The values of names, which are numbers over names, names, and lists of values.
///
/// What is known of a name for good is entered once; of the names that were entered the first ones have values.
#[derive(Drop)]
pub struct Values {
    pub(crate) alloc: Global,
    pub(crate) entries: List<Entry>,
    pub(crate) taken: usize,
    pub(crate) rows: Rows,
    pub(crate) leaves: Pmap<usize>,
    pub(crate) justs: Pmap<usize>,
}

impl Model for Values {
    ghost use Rattle.std.specs.Prelude.{◌≤◌, length};
    ghost use Rattle.std.specs.Coded.{codes};
    ghost use Rattle.ae_core.specs.contracts.terms.Sort as sort;
    ghost use Rattle.ae_value_table.specs.contracts.patterns.Pattern as pattern;
    ghost use Rattle.ae_value_table.specs.Table.{Contents};

    ghost Value = { Contents };

    ghost view = { λ v. record { entries = v.entries; taken = v.taken; rows = v.rows; leaves = v.leaves; justs = v.justs } };

    ghost coded = { Prim.hlevel (codes, sort.the_row.coded, pattern.the_row.coded) };

    ghost invariant = { λ v. v.taken ≤ length v.entries };
}

/// A version of the values, for `Values::back`.
#[derive(Clone, Copy)]
pub struct Shared {
    pub(crate) rows: RowsShared,
    pub(crate) leaves: Version,
    pub(crate) justs: Version,
    pub(crate) taken: usize,
}

/// The value of a pattern.
#[tactic(auto, using(crate::proofs::ValueLaws::value_rules))]
fn built(alloc: Global, held: &Values, pattern: &Pattern) -> Result<Value, AllocError>
    ensures { IfOk result (λ value. value ≡ value_in held.now pattern.now) }
{
    match pattern {
        Pattern::Number(name) => Ok(Value::Number(held.number(*name)?)),
        Pattern::Leaf(name) => Ok(Value::Leaf(held.leaf(*name))),
        Pattern::Fields { fields, .. } => {
            let mut parts = List::new(alloc);
            for field in fields.as_slice() {
                parts.push(built(alloc, held, field)?)?;
            }
            Ok(Value::Fields(parts))
        }
    }
}

impl Values {
    /// No name. It takes no memory.
    pub fn new(alloc: Global) -> Values
        ensures entries { result.entries ≡ [] }
        ensures taken { result.taken ≡ 0 }
        ensures numbers { (n : ℕ) → row_at result.rows n ≡ None }
        ensures leaves { (n : ℕ) → leaf_at result n ≡ n }
        // No leaf was ever put.
        ensures none { present result.leaves ≡ [] }
    {
        Values {
            alloc,
            entries: List::new(alloc),
            taken: 0,
            rows: Rows::new(alloc),
            leaves: Pmap::new(alloc),
            justs: Pmap::new(alloc),
        }
    }

    /// How many names have values. It takes no memory.
    pub fn len(&self) -> usize
        ensures len { result ≡ self.now.taken }
        ensures within { self.now.taken ≤ length self.now.entries }
    {
        self.taken
    }

    /// How many names were ever entered. It takes no memory.
    pub fn known(&self) -> usize
        ensures { result ≡ length self.now.entries }
    {
        self.entries.len()
    }

    /// What is known of a name for good. It takes no memory.
    pub fn entry(&self, name: Name) -> &Entry
        requires { name < length self.now.entries }
        ensures { slice_get self.now.entries name ≡ Some result.now }
    {
        &self.entries.as_slice()[name]
    }

    /// The row of a name, `None` where it isn't eliminated. It takes no memory.
    pub fn row(&self, name: Name) -> Option<&Row>
        ensures row { option_copied result ≡ row_at self.now.rows name }
        ensures rows { AreRows (λ n. row_at self.now.rows n) }
    {
        self.rows.row(name)
    }

    /// The number of a name: the value of its row, or once the name.
    pub fn number(&self, name: Name) -> Result<Lin, AllocError>
        ensures number { IfOk result (λ form. form ≡ number_at self.now name) }
        ensures normal { IfOk result (λ form. IsNormal form) }
    {
        match self.rows.row(name) {
            Some(row) => copied(self.alloc, &row.value),
            None => single(self.alloc, name),
        }
    }

    /// The leaf of a name. It takes no memory.
    pub fn leaf(&self, name: Name) -> Name
        ensures { result ≡ leaf_at self.now name }
    {
        match self.leaves.get(name) {
            Some(leaf) => *leaf,
            None => name,
        }
    }

    /// Whether a name was given this leaf. It takes no memory.
    pub fn has_leaf(&self, name: Name, leaf: Name) -> bool
        ensures { IsTrue result ↔ (found (present self.now.leaves) name ≡ Some leaf) }
    {
        match self.leaves.get(name) {
            Some(given) => *given == leaf,
            None => false,
        }
    }

    /// The number of the step that says what the number or the leaf of a name is, if one was put. It takes no memory.
    pub fn just(&self, name: Name) -> Option<usize>
        ensures { result ≡ just_at self.now name }
    {
        match self.justs.get(name) {
            Some(step) => Some(*step),
            None => None,
        }
    }

    /// The value of a name.
    pub fn value(&self, name: Name) -> Result<Value, AllocError>
        requires { name < self.now.taken }
        ensures { IfOk result (λ value. slice_get (values self.now) name ≡ Some value) }
    {
        let entry = &self.entries.as_slice()[name];
        built(self.alloc, self, &entry.pattern)
    }
}
