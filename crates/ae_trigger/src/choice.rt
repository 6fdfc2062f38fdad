//! Which candidates are triggers.
ghost use Rattle.std.specs.Prelude.{◌≡◌, ◌++◌, ◌∷◌, [], ◌&&◌, ℕ, List, Bool, false, true, not, take, map, IfOk, OnOk};
ghost use Rattle.std.specs.List.{list_any, list_all};
ghost use Rattle.ae_journal.specs.Triggers as definition;
ghost use Rattle.ae_trigger.specs.Inner.Choices as spec;

use crate::bodies::body_candidates;
use crate::kept::keep_where;
use crate::occurrences::{has_type_variable, has_variable, stands_inside};
use ae_core::copies::copy_term;
use ae_core::formulas::Formula;
use ae_core::lists::List;
use ae_core::problems::Signature;
use ae_core::terms::Term;
use std::alloc::{AllocError, Global};

/// What the terms of a trigger are to have: a variable of the block, by its distance, or a type variable, by its number.
#[derive(Clone, Copy)]
pub enum Wanted {
    Variable(usize),
    TypeVariable(usize),
}

/// Whether a term has what is wanted.
fn occurs(wanted: Wanted, term: &Term) -> bool
    ensures { result ≡ spec.occurs_in wanted term.now }
{
    match wanted {
        Wanted::Variable(distance) => has_variable(distance, term),
        Wanted::TypeVariable(number) => has_type_variable(number, term),
    }
}

/// Whether a term has all that is wanted.
fn has_all(wanted: &[Wanted], term: &Term) -> bool
    ensures { result ≡ spec.has_all wanted.now term.now }
{
    for one in wanted {
        if !occurs(*one, term) {
            return false;
        }
    }
    true
}

/// Whether some of the terms has what is wanted.
fn is_had(wanted: Wanted, terms: &[Term]) -> bool
    ensures { result ≡ list_any (spec.occurs_in wanted) terms.now }
{
    for term in terms {
        if occurs(wanted, term) {
            return true;
        }
    }
    false
}

/// Whether a term has something wanted that none of those taken has.
fn adds(wanted: &[Wanted], taken: &[Term], term: &Term) -> bool
    ensures { result ≡ spec.adds wanted.now taken.now term.now }
{
    for one in wanted {
        if occurs(*one, term) && !is_had(*one, taken) {
            return true;
        }
    }
    false
}

/// Whether each thing wanted is had by some of the terms.
fn have_all(wanted: &[Wanted], terms: &[Term]) -> bool
    ensures { result ≡ spec.have_all wanted.now terms.now }
{
    for one in wanted {
        if !is_had(*one, terms) {
            return false;
        }
    }
    true
}

/// The variables of a block of so many, and so many type variables.
fn all_wanted(alloc: Global, type_vars: usize, vars: usize) -> Result<List<Wanted>, AllocError>
    ensures { IfOk result (λ ws. map spec.meant ws ≡ definition.wanted type_vars vars) }
{
    let mut wanted = List::new(alloc);
    for distance in 0..vars {
        wanted.push(Wanted::Variable(distance))?;
    }
    for number in 0..type_vars {
        wanted.push(Wanted::TypeVariable(number))?;
    }
    Ok(wanted)
}

/// The terms that have all that is wanted.
fn covering(alloc: Global, wanted: &[Wanted], terms: &[Term]) -> Result<List<Term>, AllocError>
    ensures { IfOk result (λ ts. ts ≡ definition.kept (spec.has_all wanted.now) terms.now) }
{
    let mut kept = List::new(alloc);
    for term in terms {
        keep_where(alloc, &mut kept, has_all(wanted, term), term)?;
    }
    Ok(kept)
}

/// Whether none of the terms stands in this one.
fn is_smallest(terms: &[Term], term: &Term) -> bool
    ensures { result ≡ spec.is_smallest terms.now term.now }
{
    for part in terms {
        if stands_inside(part, term) {
            return false;
        }
    }
    true
}

/// The terms inside which none of them stands.
fn smallest(alloc: Global, terms: &[Term]) -> Result<List<Term>, AllocError>
    ensures { IfOk result (λ ts. ts ≡ definition.smallest terms.now) }
{
    let mut kept = List::new(alloc);
    for term in terms {
        keep_where(alloc, &mut kept, is_smallest(terms, term), term)?;
    }
    Ok(kept)
}

/// From left to right each term that adds what isn't there yet.
fn adding(alloc: Global, wanted: &[Wanted], terms: &[Term]) -> Result<List<Term>, AllocError>
    ensures { IfOk result (λ ts. ts ≡ definition.adding (map spec.meant wanted.now) [] terms.now) }
{
    let mut taken = List::new(alloc);
    for term in terms {
        let is_new = adds(wanted, taken.as_slice(), term);
        keep_where(alloc, &mut taken, is_new, term)?;
    }
    Ok(taken)
}

/// One trigger of all these terms, if there are some and they have all that is wanted.
fn joint(
    alloc: Global,
    wanted: &[Wanted],
    terms: List<Term>,
) -> Result<List<List<Term>>, AllocError>
    ensures { IfOk result (λ triggers. triggers ≡ spec.joint wanted.now terms) }
{
    let mut triggers = List::new(alloc);
    if terms.is_empty() {
        return Ok(triggers);
    }
    if !have_all(wanted, terms.as_slice()) {
        return Ok(triggers);
    }
    triggers.push(terms)?;
    Ok(triggers)
}

/// A trigger of one term.
fn alone(alloc: Global, term: &Term) -> Result<List<Term>, AllocError>
    ensures { IfOk result (λ trigger. trigger ≡ term.now ∷ []) }
{
    let mut trigger = List::new(alloc);
    let copy = copy_term(alloc, term)?;
    trigger.push(copy)?;
    Ok(trigger)
}

/// The first ten of some terms.
fn first_ten(terms: &[Term]) -> &[Term]
    ensures { result.now ≡ take 10 terms.now }
{
    if terms.len() <= 10 {
        return terms;
    }
    &terms[..10]
}

/// Each of the terms as a trigger.
fn singles(alloc: Global, terms: &[Term]) -> Result<List<List<Term>>, AllocError>
    ensures { IfOk result (λ triggers. triggers ≡ map (λ u. u ∷ []) terms.now) }
{
    let mut triggers = List::new(alloc);
    for term in terms {
        let trigger = alone(alloc, term)?;
        triggers.push(trigger)?;
    }
    Ok(triggers)
}

/// The triggers of these candidates: the smallest that have all that is wanted, ten at most; or else one of several.
fn made_of(
    alloc: Global,
    wanted: &[Wanted],
    candidates: &[Term],
) -> Result<List<List<Term>>, AllocError>
    ensures { IfOk result (λ triggers. triggers ≡ spec.made_of (map spec.meant wanted.now) candidates.now) }
{
    let covering = covering(alloc, wanted, candidates)?;
    let smallest = smallest(alloc, covering.as_slice())?;
    if smallest.is_empty() {
        let several = adding(alloc, wanted, candidates)?;
        let triggers = joint(alloc, wanted, several)?;
        return Ok(triggers);
    }
    let triggers = singles(alloc, first_ten(smallest.as_slice()))?;
    Ok(triggers)
}

/// The triggers of a block, or of an axiom with type variables, where none are written.
pub fn made(
    alloc: Global,
    signature: &Signature,
    type_vars: usize,
    vars: usize,
    body: &Formula,
) -> Result<List<List<Term>>, AllocError>
    ensures { IfOk result (λ triggers. triggers ≡ definition.made signature.now type_vars vars body.now) }
{
    let candidates = body_candidates(alloc, signature, body)?;
    let wanted = all_wanted(alloc, type_vars, vars)?;
    let triggers = made_of(alloc, wanted.as_slice(), candidates.as_slice())?;
    Ok(triggers)
}
