//! Linear forms over names, with fractions of any size.

ghost use Rattle.std.specs.Prelude.{List, ◌≡◌, ◌≢◌, ◌≤◌, ◌<◌, ◌++◌, ◌⊎◌, [], ◌∷◌, ℕ, negsuc, pos, ◌↔◌, IfOk, OnOk, IsTrue, length, take, drop, slice_get, Some};
ghost use Rattle.ae_core.specs.declared.terms.Term.{Term};
ghost use Rattle.ae_math.specs.Fractions.{ℚ, zero_ℚ, one_ℚ, neg_ℚ, ◌+ℚ◌, ◌*ℚ◌};
ghost use Rattle.ae_math.specs.Forms.{plus, scale, number as constant_form, single as only};
ghost use Rattle.ae_rules.specs.Linear.{Linear};
ghost use Rattle.ae_journal.specs.Values.{enter as entered, put_part, settled, scaled, IsSettled};
ghost use Rattle.ae_naturals.specs.Fractions.{value_of};
ghost use Rattle.ae_store.specs.Terms.{named};
ghost use Rattle.ae_constants.specs.Forms.{multiple, multiples, meaning, IsExact};

use ae_naturals::fractions::Fraction;
use ae_num::forms::Name;
use sqlite_items::at;
use std::alloc::{AllocError, Global};

/// A name with its factor.
#[derive(Drop)]
pub struct Multiple {
    pub name: Name,
    pub factor: Fraction,
}

/// The sum of multiples of names, and a constant.
#[derive(Drop)]
pub struct ExactForm {
    pub parts: Vec<Multiple>,
    pub constant: Fraction,
}

impl ExactForm {
    /// Whether the form has no name.
    pub fn is_number(&self) -> bool
        ensures { IsTrue result ↔ ((meaning self.now).parts ≡ []) }
    {
        self.parts.as_slice().is_empty()
    }
}

/// Whether the multiple at a place is of an earlier name.
fn is_earlier(parts: &[Multiple], place: usize, name: Name) -> bool
    ensures yes { IsTrue result → (m : Multiple) × (slice_get parts.now place ≡ Some m) × (m.name < name) }
    ensures no { (m : Multiple) → slice_get parts.now place ≡ Some m → IsTrue result ⊎ (name ≤ m.name) }
{
    match at(parts, place) {
        Some(part) => part.name < name,
        None => false,
    }
}

/// Whether the multiple at a place is of this name.
fn is_there(parts: &[Multiple], place: usize, name: Name) -> bool
    ensures yes { IsTrue result → (m : Multiple) × (slice_get parts.now place ≡ Some m) × (m.name ≡ name) }
    ensures no { (m : Multiple) → slice_get parts.now place ≡ Some m → IsTrue result ⊎ (m.name ≢ name) }
{
    match at(parts, place) {
        Some(part) => part.name == name,
        None => false,
    }
}

/// How many multiples stand before the place of a name.
fn place_of(parts: &[Multiple], name: Name) -> usize
    ensures within { result ≤ length parts.now }
    ensures before { (x : ℚ) → entered name x (multiples parts.now) ≡ take result (multiples parts.now) ++ entered name x (drop result (multiples parts.now)) }
    ensures behind { (m : Multiple) → slice_get parts.now result ≡ Some m → name ≤ m.name }
{
    let mut place = 0;
    'places: while is_earlier(parts, place, name) {
        place += 1;
    }
    place
}

/// Puts a multiple at a place, where its factor isn't 0.
fn put(parts: &mut Vec<Multiple>, place: usize, new: Multiple) -> Result<(), AllocError>
    requires { place ≤ length parts.old.items }
    ensures { OnOk result (multiples parts.new.items ≡ take place (multiples parts.old.items) ++ put_part new.name (value_of new.factor) (drop place (multiples parts.old.items))) }
{
    if !new.factor.is_zero() {
        parts.insert(place, new)?;
    }
    Ok(())
}

/// Adds a factor to that of the multiple at a place, where that is of this name.
fn join(
    alloc: Global,
    parts: &mut Vec<Multiple>,
    place: usize,
    name: Name,
    factor: &Fraction,
) -> Result<(), AllocError>
    requires { (m : Multiple) × (slice_get parts.old.items place ≡ Some m) × (m.name ≡ name) }
    ensures { OnOk result (multiples parts.new.items ≡ take place (multiples parts.old.items) ++ entered name (value_of factor.now) (drop place (multiples parts.old.items))) }
{
    let there = parts.remove(place);
    let joint = factor.plus(alloc, &there.factor)?;
    put(
        parts,
        place,
        Multiple {
            name,
            factor: joint,
        },
    )
}

/// Adds a multiple of a name.
fn enter(
    alloc: Global,
    parts: &mut Vec<Multiple>,
    name: Name,
    factor: Fraction,
) -> Result<(), AllocError>
    ensures { OnOk result (multiples parts.new.items ≡ entered name (value_of factor) (multiples parts.old.items)) }
{
    let place = place_of(parts.as_slice(), name);
    if is_there(parts.as_slice(), place, name) {
        join(alloc, parts, place, name, &factor)
    } else {
        put(parts, place, Multiple { name, factor })
    }
}

/// A form and a multiple of another.
fn with_multiple(
    alloc: Global,
    sum: ExactForm,
    form: &ExactForm,
    by: &Fraction,
) -> Result<ExactForm, AllocError>
    requires { IsSettled (meaning sum).parts }
    ensures parts { IfOk result (λ both. (meaning both).parts ≡ settled (scaled (value_of by.now) (meaning form.now).parts ++ (meaning sum).parts)) }
    ensures constant { IfOk result (λ both. (meaning both).constant ≡ value_of by.now *ℚ (meaning form.now).constant +ℚ (meaning sum).constant) }
{
    let ExactForm {
        mut parts,
        constant,
    } = sum;
    let added = form.parts.as_slice();
    let mut place = added.len();
    while place > 0 {
        place -= 1;
        let part = &added[place];
        let factor = by.times(alloc, &part.factor)?;
        enter(alloc, &mut parts, part.name, factor)?;
    }
    let product = by.times(alloc, &form.constant)?;
    let constant = product.plus(alloc, &constant)?;
    Ok(ExactForm { parts, constant })
}

/// The form that is a number.
pub fn number(alloc: Global, constant: Fraction) -> ExactForm
    ensures { (ts : List Term) (below : ℕ) → IsExact ts below (constant_form (value_of constant)) (meaning result) }
{
    ExactForm {
        parts: Vec::new(alloc),
        constant,
    }
}

/// The form that is one name.
pub fn single(alloc: Global, name: Name) -> Result<ExactForm, AllocError>
    ensures { IfOk result (λ form. (ts : List Term) (below : ℕ) → name < below → IsExact ts below (only (named ts name)) (meaning form)) }
{
    let mut parts = Vec::new(alloc);
    let factor = Fraction::ratio(alloc, 1, 1)?;
    parts.push(Multiple { name, factor })?;
    let constant = Fraction::ratio(alloc, 0, 1)?;
    Ok(ExactForm { parts, constant })
}

/// The form 0.
fn zero(alloc: Global) -> Result<ExactForm, AllocError>
    ensures { IfOk result (λ form. meaning form ≡ record { parts = []; constant = zero_ℚ }) }
{
    let parts = Vec::new(alloc);
    let constant = Fraction::ratio(alloc, 0, 1)?;
    Ok(ExactForm { parts, constant })
}

/// A form times a number.
pub fn multiple_of(alloc: Global, form: &ExactForm, by: &Fraction) -> Result<ExactForm, AllocError>
    ensures { IfOk result (λ product. (ts : List Term) (below : ℕ) (g : Linear) → IsExact ts below g (meaning form.now) → IsExact ts below (scale (value_of by.now) g) (meaning product)) }
{
    let nothing = zero(alloc)?;
    let product = with_multiple(alloc, nothing, form, by)?;
    Ok(product)
}

/// The sum of a form and of another times a number.
pub fn combination(
    alloc: Global,
    left: &ExactForm,
    right: &ExactForm,
    by: &Fraction,
) -> Result<ExactForm, AllocError>
    ensures { IfOk result (λ sum. (ts : List Term) (below : ℕ) (g h : Linear) → IsExact ts below g (meaning left.now) → IsExact ts below h (meaning right.now) → IsExact ts below (plus g (scale (value_of by.now) h)) (meaning sum)) }
{
    let one = Fraction::ratio(alloc, 1, 1)?;
    let nothing = zero(alloc)?;
    let first = with_multiple(alloc, nothing, left, &one)?;
    let sum = with_multiple(alloc, first, right, by)?;
    Ok(sum)
}
