//! The values of eliminated names.
ghost use Rattle.std.specs.Prelude.{◌≡◌, ◌≢◌, ℕ, ◌+◌, ◌<◌, ◌⊎◌, Option, Some, None, true, false, IfOk, OnOk, IfErr, OnErr, IfSome, IfNone, option_copied};
ghost use Rattle.std.specs.List.{Contains};
ghost use Rattle.std.specs.List.Sorted.{IsNonDecreasing};
ghost use Rattle.ae_num.specs.Forms.{IsNormal, IfWide, has_key, first_wide, subst_steps};
ghost use Rattle.ae_pmap.specs.Forest.{present, Lasts as MapLasts};
ghost use Rattle.ae_pmap.specs.Pairs.{found};
ghost use Rattle.ae_linear.specs.declared.rows.Row.{Row};
ghost use Rattle.ae_linear.specs.Inner.Occurrences.{AreLinked, Grows};
ghost use Rattle.ae_linear.specs.Rows.{row_at, value_of, AreRows, IsFree, IsSubstituted, IsSubstitutedAt, ArePut, FitsAt, IsWideAt, IsFirstWide, AreIndexed, Fits, StandsFor, Lasts};
ghost use Rattle.ae_linear.specs.Canonical.{SameByRows, ArePutFor, IsWideFor, IsPutBy, IsWideBy};

use crate::occurrences::{Link, link_each, listed};
use ae_num::copies::copied;
use ae_num::forms::{Lin, Name, subst};
use ae_num::numbers::NumFail;
use ae_pmap::{Pmap, Version};
use ae_steps::Steps;
use std::alloc::Global;
use std::marker::{Brand, Model};
use std::sync::ledger::{Blank, Ledger};

/// The value of a name, and the number of the step that justifies it.
#[derive(Debug, Drop)]
pub struct Row {
    pub value: Lin,
    pub just: usize,
}

/// The values of eliminated names. None of the names in a value is eliminated.
#[derive(Drop)]
pub struct Rows {
    alloc: Global,
    rows: Pmap<Row>,
    heads: Pmap<usize>,
    links: Vec<Link>,
}

impl Model for Rows {
    ghost use Rattle.ae_pmap.specs.Forest.{present};
    ghost use Rattle.ae_pmap.specs.Pairs.{found};
    ghost use Rattle.ae_linear.specs.Rows.{Contents, AreIndexed};

    ghost Value = { Contents };

    ghost view = { λ r. record { rows = r.rows; heads = r.heads; links = r.links.items } };

    ghost invariant = { λ r. AreIndexed (λ n. found (present r.rows) n) (λ n. found (present r.heads) n) r.links.items };
}

/// A version of rows, for `Rows::back`.
#[derive(Clone, Copy)]
pub struct Shared {
    pub(crate) rows: Version,
    pub(crate) heads: Version,
}

/// A row with a value put for a name.
fn substituted(alloc: Global, row: &Row, name: Name, value: &Lin) -> Result<Row, NumFail>
    requires row { IsNormal row.now.value }
    requires value { IsNormal value.now }
    requires absent { has_key value.now.parts name ≡ false }
    ensures ok { IfOk result (λ new. IsSubstituted row.now name value.now new) }
    ensures fits { OnOk result (first_wide (subst_steps row.now.value name value.now) ≡ None) }
    ensures wide { IfErr result (λ fail. IfWide fail (λ wide. first_wide (subst_steps row.now.value name value.now) ≡ Some wide)) }
{
    let form = subst(alloc, &row.value, name, value)?;
    Ok(Row {
        value: form,
        just: row.just,
    })
}

/// The same at one name of a map.
fn substitute_at(
    alloc: Global,
    rows: &mut Pmap<Row>,
    at: Name,
    name: Name,
    value: &Lin,
) -> Result<(), NumFail>
    requires normal { (row : Row) → found (present rows.old) at ≡ Some row → IsNormal row.value }
    requires value { IsNormal value.now }
    requires absent { has_key value.now.parts name ≡ false }
    ensures ok { OnOk result (IsSubstitutedAt (found (present rows.old) at) name value.now (found (present rows.new) at)) }
    ensures fits { OnOk result (FitsAt (found (present rows.old) at) name value.now) }
    ensures wide { IfErr result (λ fail. IfWide fail (λ wide. IsWideAt (found (present rows.old) at) name value.now wide)) }
    ensures others { (n : ℕ) → n ≢ at → found (present rows.new) n ≡ found (present rows.old) n }
    ensures lasts { MapLasts rows.old rows.new }
{
    let new = match rows.get(at) {
        Some(row) => substituted(alloc, row, name, value)?,
        None => return Ok(()),
    };
    rows.insert(at, new)?;
    Ok(())
}

/// The same at all rows that a list has, in its order. A refusal leaves some of it done.
fn substitute_each(
    alloc: Global,
    rows: &mut Pmap<Row>,
    names: &[Name],
    name: Name,
    value: &Lin,
) -> Result<(), NumFail>
    requires rows { AreRows (λ n. found (present rows.old) n) }
    requires names { IsNonDecreasing names.now }
    requires all { (n : ℕ) (row : Row) → found (present rows.old) n ≡ Some row → has_key row.value.parts name ≡ true → Contains names.now n }
    requires value { IsNormal value.now }
    requires absent { has_key value.now.parts name ≡ false }
    ensures ok { OnOk result ((n : ℕ) → IsSubstitutedAt (found (present rows.old) n) name value.now (found (present rows.new) n)) }
    ensures untouched { OnOk result ((n : ℕ) → Contains names.now n ⊎ (found (present rows.new) n ≡ found (present rows.old) n)) }
    ensures fits { OnOk result ((n : ℕ) → FitsAt (found (present rows.old) n) name value.now) }
    ensures wide { IfErr result (λ fail. IfWide fail (λ wide. IsFirstWide (λ n. found (present rows.old) n) name value.now wide)) }
    ensures lasts { MapLasts rows.old rows.new }
{
    for at in names {
        substitute_at(alloc, rows, *at, name, value)?;
    }
    Ok(())
}

/// The same at all rows that have the name, and the row of the name itself. A refusal leaves some of it done.
fn put_in(
    alloc: Global,
    rows: &mut Pmap<Row>,
    heads: &mut Pmap<usize>,
    links: &mut Vec<Link>,
    name: Name,
    value: Lin,
    just: usize,
) -> Result<(), NumFail>
    requires indexed { AreIndexed (λ n. found (present rows.old) n) (λ n. found (present heads.old) n) links.old.items }
    requires value { IsNormal value }
    requires free { IsFree (λ n. found (present rows.old) n) value }
    requires absent { has_key value.parts name ≡ false }
    ensures indexed { OnOk result (AreIndexed (λ n. found (present rows.new) n) (λ n. found (present heads.new) n) links.new.items) }
    ensures ok { OnOk result (ArePut (λ n. found (present rows.old) n) name value just (λ n. found (present rows.new) n)) }
    ensures fits { OnOk result ((n : ℕ) → FitsAt (found (present rows.old) n) name value) }
    ensures wide { IfErr result (λ fail. IfWide fail (λ wide. IsFirstWide (λ n. found (present rows.old) n) name value wide)) }
    ensures linked { AreLinked links.new.items }
    ensures grows { Grows links.old.items links.new.items }
    ensures rows_last { MapLasts rows.old rows.new }
    ensures heads_last { MapLasts heads.old heads.new }
{
    let having = listed(alloc, heads, links, name)?;
    let names = having.as_slice();
    substitute_each(alloc, rows, names, name, &value)?;
    let parts = value.parts.as_slice();
    link_each(heads, links, parts, names)?;
    link_each(heads, links, parts, &[name])?;
    rows.insert(name, Row { value, just })?;
    Ok(())
}

impl Rows {
    /// No rows. It takes no memory.
    pub fn new(alloc: Global) -> Rows
        ensures { (n : ℕ) → row_at result n ≡ None }
    {
        Rows {
            alloc,
            rows: Pmap::new(alloc),
            heads: Pmap::new(alloc),
            links: Vec::new(alloc),
        }
    }

    /// The row of a name, `None` where it isn't eliminated. It takes no memory.
    pub fn row(&self, name: Name) -> Option<&Row>
        ensures row { option_copied result ≡ row_at self.now name }
        ensures rows { AreRows (λ n. row_at self.now n) }
    {
        self.rows.get(name)
    }

    /// The value of a name, `None` where it isn't eliminated. It takes no memory.
    pub fn value(&self, name: Name) -> Option<&Lin>
        ensures value { option_copied result ≡ value_of (row_at self.now name) }
    {
        match self.rows.get(name) {
            Some(row) => Some(&row.value),
            None => None,
        }
    }

    /// The form with the value of a name put for it, `None` where the name isn't eliminated.
    fn put_for(&self, form: &Lin, key: Name) -> Result<Option<Lin>, NumFail>
        requires { IsNormal form.now }
        ensures some { IfOk result (λ o. IfSome o (λ new. IsPutBy (row_at self.now key) key form.now new)) }
        ensures none { IfOk result (λ o. IfNone o (row_at self.now key ≡ None)) }
        ensures wide { IfErr result (λ fail. IfWide fail (λ wide. IsWideBy (row_at self.now key) form.now key wide)) }
    {
        match self.rows.get(key) {
            Some(row) => Ok(Some(subst(self.alloc, form, key, &row.value)?)),
            None => Ok(None),
        }
    }

    /// The form with the value of each eliminated name put for it, in the normal form.
    ///
    /// `Wide` comes exactly at the first stated product or sum that leaves the limits, names taken as they rise.
    pub fn canon(&self, lin: &Lin) -> Result<Lin, NumFail>
        requires { IsNormal lin.now }
        ensures exact { IfOk result (λ form. SameByRows (λ n. row_at self.now n) lin.now form) }
        ensures free { IfOk result (λ form. IsFree (λ n. row_at self.now n) form) }
        ensures normal { IfOk result (λ form. IsNormal form) }
        ensures fits { IfOk result (λ form. ArePutFor (λ n. row_at self.now n) lin.now.parts lin.now form) }
        ensures wide { IfErr result (λ fail. IfWide fail (λ wide. IsWideFor (λ n. row_at self.now n) lin.now wide)) }
    {
        let mut form = copied(self.alloc, lin)?;
        for part in lin.parts.as_slice() {
            match self.put_for(&form, part.key)? {
                Some(new) => form = new,
                None => {}
            }
        }
        Ok(form)
    }

    /// The same, counted by a ledger of its own: a refusal goes back to a version that was shared first.
    fn put_counted<L: Ledger>(
        &mut self,
        name: Name,
        value: Lin,
        just: usize,
        blank: Blank,
    ) -> Result<(), NumFail>
        requires brand { blank.name ≡ L.name }
        requires parts { blank.parts ≡ L.parts }
        requires some { 0 < blank.parts }
        requires value { IsNormal value }
        requires free { IsFree (λ n. row_at self.old n) value }
        requires absent { has_key value.parts name ≡ false }
        ensures ok { OnOk result (ArePut (λ n. row_at self.old n) name value just (λ n. row_at self.new n)) }
        ensures fits { OnOk result ((n : ℕ) → FitsAt (row_at self.old n) name value) }
        ensures wide { IfErr result (λ fail. IfWide fail (λ wide. IsFirstWide (λ n. row_at self.old n) name value wide)) }
        ensures err { OnErr result ((n : ℕ) → row_at self.new n ≡ row_at self.old n) }
        ensures lasts { Lasts self.old self.new }
    {
        let mut steps = Steps::<L>::new(blank);
        let rows = self.rows.share(&mut steps);
        let heads = self.heads.share(&mut steps);
        match put_in(
            self.alloc,
            &mut self.rows,
            &mut self.heads,
            &mut self.links,
            name,
            value,
            just,
        ) {
            Ok(()) => Ok(()),
            Err(refused) => {
                self.rows.back(rows, &mut steps);
                self.heads.back(heads, &mut steps);
                Err(refused)
            }
        }
    }

    /// Eliminates a name: the value is put for it in each row that has it, and becomes its row.
    ///
    /// `Wide` comes exactly at the first stated product or sum that leaves the limits, rows taken by rising
    /// name. Any refusal leaves the rows as before.
    pub fn put(&mut self, name: Name, value: Lin, just: usize) -> Result<(), NumFail>
        requires value { IsNormal value }
        requires free { IsFree (λ n. row_at self.old n) value }
        requires absent { has_key value.parts name ≡ false }
        ensures ok { OnOk result (ArePut (λ n. row_at self.old n) name value just (λ n. row_at self.new n)) }
        ensures fits { OnOk result ((n : ℕ) → FitsAt (row_at self.old n) name value) }
        ensures wide { IfErr result (λ fail. IfWide fail (λ wide. IsFirstWide (λ n. row_at self.old n) name value wide)) }
        ensures err { OnErr result ((n : ℕ) → row_at self.new n ≡ row_at self.old n) }
        ensures lasts { Lasts self.old self.new }
    {
        self.put_counted::<Brand>(name, value, just, Blank::new(1))
    }

    /// A version of the rows, for `back`. It takes no memory, and one step for each of the two maps.
    pub fn share<L: Ledger>(&self, steps: &mut Steps<L>) -> Shared
        ensures version { StandsFor self.now result (λ n. row_at self.now n) }
        ensures steps { steps.new ≡ steps.old + 2 }
    {
        Shared {
            rows: self.rows.share(steps),
            heads: self.heads.share(steps),
        }
    }

    /// Goes to the rows that were shared. It takes no memory, and one step for each of the two maps.
    pub fn back<L: Ledger>(&mut self, shared: &Shared, steps: &mut Steps<L>)
        requires fits { Fits self.old shared.now }
        ensures rows { (rows : ℕ → Option Row) → StandsFor self.old shared.now rows → (n : ℕ) → row_at self.new n ≡ rows n }
        ensures lasts { Lasts self.old self.new }
        ensures steps { steps.new ≡ steps.old + 2 }
    {
        self.rows.back(shared.rows, steps);
        self.heads.back(shared.heads, steps);
    }
}
