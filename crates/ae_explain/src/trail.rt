//! The true literals, in the order in which they became true, found by the numbers of their formulas.
ghost use Rattle.std.specs.Prelude.{◌≡◌, ◌≢◌, ◌∷◌, ◌++◌, ◌+◌, ◌<◌, ◌≤◌, [], ℕ, Bool, List, Option, length, None, Some, IfOk, MatchOption, OnOk, OnErr};
ghost use Rattle.std.specs.Option.{IfSome};
ghost use Rattle.ae_explain.specs.Assignments.{AreKept, AreValues, IsGiven, number_in};
ghost use Rattle.ae_explain.specs.Trail.{Apart, at, place_in};
ghost use Rattle.ae_explain.specs.Levels.{level_of};
ghost use Rattle.ae_explain.specs.Fronts.{AreRising, IsFront};
ghost use Rattle.ae_explain.specs.Inner.Index.{IsIndex, number_at, value_at};
ghost use Rattle.ae_explain.specs.declared.trail.Assigned.{Assigned};
ghost use Rattle.ae_core.specs.declared.formulas.Formula.{Formula};

use ae_core::copies::copy_formula;
use ae_core::formulas::{Formula, Lit};
use ae_core::lists::List;
use std::alloc::{AllocError, Global};
use std::collections::BTreeMap;
use std::marker::Model;

/// A literal that is true: the number of decisions before it, itself among them, and the place of the clause that
/// made it true. A decision has no such clause.
#[derive(Drop)]
pub struct Assigned {
    pub lit: Lit,
    pub level: usize,
    pub by: Option<usize>,
}

/// The true literals, in the order in which they became true, and the numbers of formulas. No formula stands twice,
/// and a formula keeps its number.
#[derive(Drop)]
pub struct Trail {
    assigned: List<Assigned>,
    /// The numbers of the literals' formulas, in their order.
    standing: List<usize>,
    /// By each number, whether its formula is true, where it stands.
    values: List<Option<bool>>,
    /// By each number whose formula stands, where it does.
    places: List<usize>,
    /// The number of each formula that has one.
    numbers: BTreeMap<Formula, usize>,
}

impl Model for Trail {
    ghost use Rattle.std.specs.Coded.{codes};
    ghost use Rattle.ae_core.specs.contracts.formulas.Formula as formula;
    ghost use Rattle.ae_explain.specs.Assignments.{Assignment, number_in};
    ghost use Rattle.ae_explain.specs.Inner.Index.{IsIndex};

    ghost Value = { Assignment };

    ghost coded = { Prim.hlevel (codes, formula.the_row.coded) };

    ghost view = { λ t. record { assigned = t.assigned; numbers = t.numbers.entries } };

    ghost invariant = { λ t. IsIndex (number_in t.numbers.entries) t.assigned t.standing t.values t.places };
}

/// Adds a number without a value.
fn push_value(values: &mut List<Option<bool>>) -> Result<(), AllocError>
    ensures ok { OnOk result (length values.new ≡ length values.old + 1) }
    ensures err { OnErr result (length values.new ≡ length values.old) }
    ensures same { (n : ℕ) → value_at values.new n ≡ value_at values.old n }
{
    values.push(None)
}

/// Adds a number without a place.
fn push_place(places: &mut List<usize>) -> Result<(), AllocError>
    ensures ok { OnOk result (length places.new ≡ length places.old + 1) }
    ensures err { OnErr result (length places.new ≡ length places.old) }
    ensures same { (n : ℕ) → number_at places.new n ≡ number_at places.old n }
{
    places.push(0)
}

/// Adds numbers without a value until this one has room.
fn add_values(values: &mut List<Option<bool>>, number: usize) -> Result<(), AllocError>
    ensures ok { OnOk result (number < length values.new) }
    ensures longer { length values.old ≤ length values.new }
    ensures same { (n : ℕ) → value_at values.new n ≡ value_at values.old n }
{
    let mut size = values.len();
    while size < number {
        push_value(values)?;
        size += 1;
    }
    if size > number {
        return Ok(());
    }
    push_value(values)
}

/// Adds numbers without a place until this one has room.
fn add_places(places: &mut List<usize>, number: usize) -> Result<(), AllocError>
    ensures ok { OnOk result (number < length places.new) }
    ensures longer { length places.old ≤ length places.new }
    ensures same { (n : ℕ) → number_at places.new n ≡ number_at places.old n }
{
    let mut size = places.len();
    while size < number {
        push_place(places)?;
        size += 1;
    }
    if size > number {
        return Ok(());
    }
    push_place(places)
}

/// Drops the last number.
fn drop_number(standing: &mut List<usize>)
    ensures { (kept : List ℕ) (last : ℕ) → standing.old ≡ kept ++ last ∷ [] → standing.new ≡ kept }
{
    match standing.pop() {
        Some(_last) => {}
        None => {}
    }
}

/// Puts a literal and its formula's number at the end. Refused memory leaves both lists as they were.
fn push_both(
    assigned: &mut List<Assigned>,
    standing: &mut List<usize>,
    own: Assigned,
    number: usize,
) -> Result<(), AllocError>
    ensures ok { OnOk result (assigned.new ≡ assigned.old ++ own ∷ []) }
    ensures ok_standing { OnOk result (standing.new ≡ standing.old ++ number ∷ []) }
    ensures err { OnErr result (assigned.new ≡ assigned.old) }
    ensures err_standing { OnErr result (standing.new ≡ standing.old) }
{
    standing.push(number)?;
    if let Err(failed) = assigned.push(own) {
        drop_number(standing);
        return Err(failed);
    }
    Ok(())
}

/// Forgets the value of a number.
fn forget_value(values: &mut List<Option<bool>>, number: usize)
    ensures room { length values.new ≡ length values.old }
    ensures own { value_at values.new number ≡ None }
    ensures others { (n : ℕ) → n ≢ number → value_at values.new n ≡ value_at values.old n }
{
    if number < values.len() {
        values.set(number, None);
    }
}

/// Drops the last number, and forgets its value.
fn forget_number(standing: &mut List<usize>, values: &mut List<Option<bool>>)
    ensures { (number : Formula → Option ℕ) (t : List Assigned) (last : Assigned) (places : List ℕ) →
        IsIndex number (t ++ last ∷ []) standing.old values.old places → IsIndex number t standing.new values.new places }
{
    match standing.pop() {
        Some(number) => forget_value(values, number),
        None => {}
    }
}

/// Drops the last literal, and its formula's value. It takes no memory.
fn forget_last(
    assigned: &mut List<Assigned>,
    standing: &mut List<usize>,
    values: &mut List<Option<bool>>,
)
    ensures kept { (kept : List Assigned) (last : Assigned) → assigned.old ≡ kept ++ last ∷ [] → assigned.new ≡ kept }
    ensures index { (number : Formula → Option ℕ) (places : List ℕ) →
        IsIndex number assigned.old standing.old values.old places → IsIndex number assigned.new standing.new values.new places }
{
    match assigned.pop() {
        Some(_last) => forget_number(standing, values),
        None => {}
    }
}

/// Drops the literals above a level, and their formulas' values. It takes no memory and compares no formulas.
fn cut(
    assigned: &mut List<Assigned>,
    standing: &mut List<usize>,
    values: &mut List<Option<bool>>,
    level: usize,
)
    requires rising { AreRising assigned.old }
    ensures front { IsFront assigned.old level assigned.new }
    ensures index { (number : Formula → Option ℕ) (places : List ℕ) →
        IsIndex number assigned.old standing.old values.old places → IsIndex number assigned.new standing.new values.new places }
{
    let mut count = assigned.len();
    while 0 < count {
        let place = count - 1;
        if assigned.as_slice()[place].level <= level {
            return;
        }
        forget_last(assigned, standing, values);
        count = place;
    }
}

/// The place of a number whose formula stands.
fn place_by(values: &[Option<bool>], places: &[usize], number: usize) -> Option<usize>
    requires room { number < length values.now }
    requires place_room { number < length places.now }
    ensures { MatchOption result (value_at values.now number ≡ None)
        (λ p. (p ≡ number_at places.now number) × ((b : Bool) × (value_at values.now number ≡ Some b))) }
{
    match values[number] {
        Some(_value) => Some(places[number]),
        None => None,
    }
}

impl Trail {
    /// The trail without a literal. No formula has a number yet.
    pub fn new(alloc: Global) -> Trail
        ensures assigned { result.assigned ≡ [] }
        ensures numbers { (f : Formula) → number_in result.numbers f ≡ None }
    {
        Trail {
            assigned: List::new(alloc),
            standing: List::new(alloc),
            values: List::new(alloc),
            places: List::new(alloc),
            numbers: BTreeMap::new(alloc),
        }
    }

    /// A formula's number, where it has one, in time logarithmic in the formulas that have.
    pub fn number_of(&self, formula: &Formula) -> Option<usize>
        ensures { result ≡ number_in self.now.numbers formula.now }
    {
        self.numbers.get(formula).copied()
    }

    /// Gives a formula without a number one that no formula has; the caller chooses it, so that tables of its own can
    /// go by the same numbers. Room is made for all numbers up to it.
    pub fn give_number(
        &mut self,
        alloc: Global,
        formula: &Formula,
        number: usize,
    ) -> Result<(), AllocError>
        requires new { number_in self.old.numbers formula.now ≡ None }
        requires free { (f : Formula) → number_in self.old.numbers f ≢ Some number }
        ensures ok { OnOk result (IsGiven formula.now number (number_in self.old.numbers) (number_in self.new.numbers)) }
        ensures err { OnErr result (self.new.numbers ≡ self.old.numbers) }
        ensures assigned { self.new.assigned ≡ self.old.assigned }
    {
        add_values(&mut self.values, number)?;
        add_places(&mut self.places, number)?;
        forget_value(&mut self.values, number);
        let copy = copy_formula(alloc, formula)?;
        match self.numbers.insert(copy, number) {
            Ok(_) => Ok(()),
            Err(failed) => Err(AllocError::from(failed)),
        }
    }

    /// A formula's number; a new one where it has none yet.
    fn enter(&mut self, alloc: Global, formula: &Formula) -> Result<usize, AllocError>
        ensures number { IfOk result (λ n. number_in self.new.numbers formula.now ≡ Some n) }
        ensures kept { AreKept (number_in self.old.numbers) (number_in self.new.numbers) }
        ensures assigned { self.new.assigned ≡ self.old.assigned }
    {
        if let Some(number) = self.number_of(formula) {
            return Ok(number);
        }
        let number = self.values.len();
        self.give_number(alloc, formula, number)?;
        Ok(number)
    }

    /// Puts a literal at the end, whose formula has this number and must not stand in the trail. It compares and
    /// copies no formulas.
    pub fn assign_numbered(&mut self, number: usize, assigned: Assigned) -> Result<(), AllocError>
        requires number { number_in self.old.numbers assigned.lit.formula ≡ Some number }
        requires new { place_in self.old.assigned assigned.lit.formula ≡ None }
        ensures ok { OnOk result (self.new.assigned ≡ self.old.assigned ++ assigned ∷ []) }
        ensures err { OnErr result (self.new.assigned ≡ self.old.assigned) }
        ensures numbers { self.new.numbers ≡ self.old.numbers }
    {
        let place = self.assigned.len();
        let positive = assigned.lit.positive;
        push_both(&mut self.assigned, &mut self.standing, assigned, number)?;
        self.values.set(number, Some(positive));
        self.places.set(number, place);
        Ok(())
    }

    /// Puts a literal at the end. Its formula must not stand in the trail; it gets a number where it has none.
    pub fn assign(&mut self, alloc: Global, assigned: Assigned) -> Result<(), AllocError>
        requires new { place_in self.old.assigned assigned.lit.formula ≡ None }
        ensures ok { OnOk result (self.new.assigned ≡ self.old.assigned ++ assigned ∷ []) }
        ensures err { OnErr result (self.new.assigned ≡ self.old.assigned) }
        ensures numbers { AreKept (number_in self.old.numbers) (number_in self.new.numbers) }
    {
        let number = self.enter(alloc, &assigned.lit.formula)?;
        self.assign_numbered(number, assigned)
    }

    /// Drops the literals above a level, in time linear in those. It takes no memory and compares no formulas.
    pub fn back_to(&mut self, level: usize)
        requires rising { AreRising self.old.assigned }
        ensures front { IsFront self.old.assigned level self.new.assigned }
        ensures numbers { self.new.numbers ≡ self.old.numbers }
    {
        cut(
            &mut self.assigned,
            &mut self.standing,
            &mut self.values,
            level,
        );
    }

    /// By each number, whether its formula is true, where it stands; no entry says that it doesn't.
    pub fn values(&self) -> &[Option<bool>]
        ensures { AreValues (number_in self.now.numbers) result.now self.now.assigned }
    {
        self.values.as_slice()
    }

    /// The number of the formula at a place.
    pub fn number_at(&self, place: usize) -> usize
        requires within { place < length self.now.assigned }
        ensures { number_in self.now.numbers (at self.now.assigned place).lit.formula ≡ Some result }
    {
        self.standing.as_slice()[place]
    }

    /// The literals in their order. No formula stands twice.
    pub fn as_slice(&self) -> &[Assigned]
        ensures value { result.now ≡ self.now.assigned }
        ensures apart { Apart self.now.assigned }
    {
        self.assigned.as_slice()
    }

    /// How many literals there are.
    pub fn len(&self) -> usize
        ensures { result ≡ length self.now.assigned }
    {
        self.assigned.len()
    }

    /// The literal at a place.
    pub fn lit_at(&self, place: usize) -> &Lit
        requires within { place < length self.now.assigned }
        ensures { result.now ≡ (at self.now.assigned place).lit }
    {
        &self.assigned.as_slice()[place].lit
    }

    /// The level of the literal at a place.
    pub fn level_at(&self, place: usize) -> usize
        requires within { place < length self.now.assigned }
        ensures { result ≡ (at self.now.assigned place).level }
    {
        self.assigned.as_slice()[place].level
    }

    /// The place of the clause that made the literal at a place true; a decision has none.
    pub fn by_at(&self, place: usize) -> Option<usize>
        requires within { place < length self.now.assigned }
        ensures { result ≡ (at self.now.assigned place).by }
    {
        self.assigned.as_slice()[place].by
    }

    /// The place where a formula stands, true or false, in time logarithmic in the formulas that have a number.
    pub fn place_of(&self, formula: &Formula) -> Option<usize>
        ensures place { result ≡ place_in self.now.assigned formula.now }
        // It stands nowhere else.
        ensures only { (p : ℕ) → p < length self.now.assigned → (at self.now.assigned p).lit.formula ≡ formula.now → result ≡ Some p }
        ensures within { IfSome result (λ p. p < length self.now.assigned) }
    {
        match self.number_of(formula) {
            Some(number) => place_by(self.values.as_slice(), self.places.as_slice(), number),
            None => None,
        }
    }

    /// The level of a literal's formula, 0 where it doesn't stand.
    pub fn level_of(&self, lit: &Lit) -> usize
        ensures { result ≡ level_of self.now.assigned lit.now }
    {
        match self.place_of(&lit.formula) {
            Some(place) => self.level_at(place),
            None => 0,
        }
    }
}
