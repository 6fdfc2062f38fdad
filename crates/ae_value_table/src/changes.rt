//! Single changes of what is held.
ghost use Rattle.std.specs.Prelude.{◌≡◌, ◌≤◌, ℕ, [], ◌∷◌, ◌++◌, false, length, Some, OnOk, OnErr, IfErr};
ghost use Rattle.ae_num.specs.Forms.{IsNormal, IfWide, has_key};
ghost use Rattle.ae_pmap.specs.Forest.{present};
ghost use Rattle.ae_pmap.specs.Pairs.{found, with_at};
ghost use Rattle.ae_linear.specs.Rows.{row_at, IsFree, ArePut, FitsAt, IsFirstWide};
ghost use Rattle.ae_value_table.specs.Table.{just_at};
ghost use Rattle.ae_value_table.specs.Versions.{Lasts};

use crate::patterns::Entry;
use crate::table::Values;
use ae_num::forms::{Lin, Name};
use ae_num::numbers::NumFail;
use std::alloc::AllocError;

impl Values {
    /// Enters what is known of the next name for good. Refused memory leaves all as it was.
    pub fn enter(&mut self, entry: Entry) -> Result<(), AllocError>
        ensures ok { OnOk result (self.new ≡ record self.old { entries = self.old.entries ++ entry ∷ [] }) }
        ensures err { OnErr result (self.new ≡ self.old) }
        ensures lasts { Lasts self.old self.new }
    {
        self.entries.push(entry)
    }

    /// Lets the first names that were entered have values, so many. It takes no memory.
    pub fn hold(&mut self, count: usize)
        requires { count ≤ length self.old.entries }
        ensures held { self.new ≡ record self.old { taken = count } }
        ensures lasts { Lasts self.old self.new }
    {
        self.taken = count;
    }

    /// Puts a number for a name in each row that has it, and makes it the row of the name.
    ///
    /// `Wide` comes exactly at the first stated product or sum that leaves the limits, rows taken by rising
    /// name. Any refusal leaves all as it was.
    pub fn put_row(&mut self, name: Name, value: Lin) -> Result<(), NumFail>
        requires value { IsNormal value }
        requires free { IsFree (λ n. row_at self.old.rows n) value }
        requires absent { has_key value.parts name ≡ false }
        ensures ok { OnOk result (ArePut (λ n. row_at self.old.rows n) name value 0 (λ n. row_at self.new.rows n)) }
        ensures fits { OnOk result ((n : ℕ) → FitsAt (row_at self.old.rows n) name value) }
        ensures wide { IfErr result (λ fail. IfWide fail (λ wide. IsFirstWide (λ n. row_at self.old.rows n) name value wide)) }
        ensures err { OnErr result ((n : ℕ) → row_at self.new.rows n ≡ row_at self.old.rows n) }
        ensures others { self.new ≡ record self.old { rows = self.new.rows } }
        ensures lasts { Lasts self.old self.new }
    {
        self.rows.put(name, value, 0)
    }

    /// Gives a name a leaf. Refused memory leaves all as it was.
    pub fn put_leaf(&mut self, name: Name, leaf: Name) -> Result<(), AllocError>
        ensures ok { OnOk result ((n : ℕ) → found (present self.new.leaves) n ≡ with_at (found (present self.old.leaves)) name (Some leaf) n) }
        ensures err { OnErr result (present self.new.leaves ≡ present self.old.leaves) }
        ensures others { self.new ≡ record self.old { leaves = self.new.leaves } }
        ensures lasts { Lasts self.old self.new }
    {
        self.leaves.insert(name, leaf)
    }

    /// Gives a name the number of the step that says what its number or its leaf is. Refused memory leaves all as it was.
    pub fn put_just(&mut self, name: Name, step: usize) -> Result<(), AllocError>
        ensures ok { OnOk result ((n : ℕ) → just_at self.new n ≡ with_at (found (present self.old.justs)) name (Some step) n) }
        ensures err { OnErr result (present self.new.justs ≡ present self.old.justs) }
        ensures others { self.new ≡ record self.old { justs = self.new.justs } }
        ensures lasts { Lasts self.old self.new }
    {
        self.justs.insert(name, step)
    }
}
