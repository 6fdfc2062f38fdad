//! The matches that were taken, each once up to names that are the same.
ghost use Rattle.std.specs.Prelude.{◌≡◌, ◌≤◌, ◌++◌, ◌∷◌, [], ℕ, Some, not, IfOk, OnOk, OnErr, true, false, Ok};
ghost use Rattle.std.specs.List.{list_any};
ghost use Rattle.indexmap.specs.IndexMap.{get};
ghost use Rattle.ae_base.specs.Options.{or_else};
ghost use Rattle.ae_store.specs.Keys.{is_same};
ghost use Rattle.ae_inst.specs.Index as index;
ghost use Rattle.ae_inst.specs.Matches as spec;

use ae_core::copies::copy_sorts;
use ae_core::lists::{List, at};
use ae_core::sorts::are_sorts;
use ae_core::terms::Sort;
use ae_known::known::push_under;
use ae_num::forms::Name;
use ae_store::args::Args;
use ae_store::nodes::{NodeHead, Shape};
use ae_store::store::Store;
use ae_theory::theory::Equalities;
use ae_trigger::patterns::Subst;
use indexmap::IndexMap;
use std::alloc::{AllocError, Global};
use std::marker::Model;

/// A match that was taken, and of what: a number that the caller gives to each literal and axiom.
#[derive(Drop)]
pub struct Taken {
    pub owner: usize,
    /// The sorts of the type variables.
    pub sorts: List<Sort>,
    /// The names of the variables.
    pub terms: List<Name>,
}

/// The matches that were taken, in the order in which they were. Contracts see these alone.
#[derive(Drop)]
pub struct Instances {
    alloc: Global,
    taken: List<Taken>,
    /// The places of the matches, by their owners and first names.
    places: IndexMap<Shape, List<usize>>,
    /// No first name is above it.
    most: Name,
}

impl Model for Instances {
    ghost use Rattle.indexmap.specs.IndexMap.{get};
    ghost use Rattle.ae_store.specs.Keys.{is_same};
    ghost use Rattle.ae_inst.specs.Index.{Held, held_code, IsIndex};

    ghost Value = { Held };

    ghost coded = { held_code };

    ghost view = { λ s. record { taken = s.taken } };

    ghost invariant = { λ s. IsIndex s.taken (get is_same s.places) s.most };
}

/// Whether two lists of names are the same, one by one. It takes no memory.
pub fn are_same<E: Equalities>(equalities: &E, left: &[Name], right: &[Name]) -> bool
    ensures { result ≡ spec.are_same (E.alike equalities.now) left.now right.now }
{
    if left.len() != right.len() {
        return false;
    }
    for i in 0..left.len() {
        if !equalities.same(left[i], right[i]) {
            return false;
        }
    }
    true
}

/// Whether a match that was taken is the same as one of this owner.
fn is_match<E: Equalities>(equalities: &E, owner: usize, subst: &Subst, taken: &Taken) -> bool
    ensures { result ≡ spec.is_match (E.alike equalities.now) owner subst.now taken.now }
{
    taken.owner == owner
        && are_sorts(taken.sorts.as_slice(), subst.sorts.as_slice())
        && are_same(equalities, taken.terms.as_slice(), subst.terms.as_slice())
}

/// The names, copied.
fn copy_names(alloc: Global, names: &[Name]) -> Result<List<Name>, AllocError>
    ensures { IfOk result (λ copies. copies ≡ names.now) }
{
    List::from_slice(alloc, names)
}

/// What a match stands under: its owner, and its first name if there is one.
fn key_of(alloc: Global, owner: usize, first: Option<Name>) -> Result<Shape, AllocError>
    ensures { IfOk result (λ key. key ≡ index.key owner first) }
{
    let mut args = Args::new(alloc);
    if let Some(name) = first {
        args.push(name)?;
    }
    Ok(Shape {
        head: NodeHead::Fresh(owner),
        sorts: List::new(alloc),
        args,
        sort: Sort::Unit,
    })
}

/// Whether the match at one of these places is the same as one of this owner. It takes no memory.
fn is_at<E: Equalities>(
    equalities: &E,
    taken: &[Taken],
    places: &[usize],
    owner: usize,
    subst: &Subst,
) -> bool
    ensures { result ≡ list_any (spec.is_match_at (E.alike equalities.now) owner subst.now taken.now) places.now }
{
    for place in places {
        if let Some(other) = at(taken, *place) {
            if is_match(equalities, owner, subst, other) {
                return true;
            }
        }
    }
    false
}

/// Whether one of these matches is the same as one of this owner. It takes no memory.
fn is_among<E: Equalities>(equalities: &E, taken: &[Taken], owner: usize, subst: &Subst) -> bool
    ensures { result ≡ list_any (spec.is_match (E.alike equalities.now) owner subst.now) taken.now }
{
    for other in taken {
        if is_match(equalities, owner, subst, other) {
            return true;
        }
    }
    false
}

/// The places that stand under a key. It takes no memory.
fn places_under<'a>(places: &'a IndexMap<Shape, List<usize>>, key: &Shape) -> &'a [usize]
    ensures { result.now ≡ or_else (get is_same places.now key.now) [] }
{
    match places.get(key) {
        None => &[],
        Some(found) => found.as_slice(),
    }
}

/// Whether a match that stands under the owner and one of these names is the same as one of this owner.
fn is_under<E: Equalities>(
    alloc: Global,
    equalities: &E,
    taken: &[Taken],
    places: &IndexMap<Shape, List<usize>>,
    owner: usize,
    subst: &Subst,
    names: &[Name],
) -> Result<bool, AllocError>
    ensures { IfOk result (λ b. b ≡ list_any (spec.is_match_under (E.alike equalities.now) owner subst.now taken.now (get is_same places.now)) names.now) }
{
    for name in names {
        let key = key_of(alloc, owner, Some(*name))?;
        if is_at(equalities, taken, places_under(places, &key), owner, subst) {
            return Ok(true);
        }
    }
    Ok(false)
}

/// The greater of the two, where there are two.
fn greatest(most: Name, first: Option<Name>) -> Name
    ensures most { most ≤ result }
    ensures first { (n : ℕ) → first ≡ Some n → n ≤ result }
{
    match first {
        None => most,
        Some(name) => { if most < name { name } else { most } }
    }
}

impl Instances {
    /// No match was taken.
    pub fn new(alloc: Global) -> Instances
        ensures { result.taken ≡ [] }
    {
        Instances {
            alloc,
            taken: List::new(alloc),
            places: IndexMap::new(alloc),
            most: 0,
        }
    }

    /// Whether a match of this owner was taken that is the same by these equalities: of equal sorts, and of names that
    /// are the same one by one. It looks only at those whose first name is the same, where the store has all first names.
    pub fn is_taken<E: Equalities>(
        &self,
        store: &Store,
        equalities: &E,
        owner: usize,
        subst: &Subst,
    ) -> Result<bool, AllocError>
        requires fits { E.fits equalities.now store.now }
        ensures { IfOk result (λ b. b ≡ list_any (spec.is_match (E.alike equalities.now) owner subst.now) self.now.taken) }
    {
        let taken = self.taken.as_slice();
        match at(subst.terms.as_slice(), 0).copied() {
            None => {
                let key = key_of(self.alloc, owner, None)?;
                let places = places_under(&self.places, &key);
                Ok(is_at(equalities, taken, places, owner, subst))
            }
            Some(first) => {
                if first >= store.len() || self.most >= store.len() {
                    return Ok(is_among(equalities, taken, owner, subst));
                }
                let names = equalities.equals(self.alloc, store, first)?;
                is_under(
                    self.alloc,
                    equalities,
                    taken,
                    &self.places,
                    owner,
                    subst,
                    names.as_slice(),
                )
            }
        }
    }

    /// Keeps a match, behind the others.
    fn keep(&mut self, owner: usize, subst: &Subst) -> Result<(), AllocError>
        ensures kept { OnOk result (self.new.taken ≡ self.old.taken ++ spec.taken owner subst.now ∷ []) }
        ensures err { OnErr result (self.new.taken ≡ self.old.taken) }
    {
        let sorts = copy_sorts(self.alloc, subst.sorts.as_slice())?;
        let terms = copy_names(self.alloc, subst.terms.as_slice())?;
        let first = at(subst.terms.as_slice(), 0).copied();
        let key = key_of(self.alloc, owner, first)?;
        let most = greatest(self.most, first);
        let place = self.taken.len();
        push_under(self.alloc, &mut self.places, key, place)?;
        self.taken.push(Taken {
            owner,
            sorts,
            terms,
        })?;
        self.most = most;
        Ok(())
    }

    /// Takes a match: true exactly where no same match of this owner was taken before, and then it is kept, behind
    /// the others. Refused for want of memory alone, and then nothing has changed.
    pub fn take<E: Equalities>(
        &mut self,
        store: &Store,
        equalities: &E,
        owner: usize,
        subst: &Subst,
    ) -> Result<bool, AllocError>
        requires fits { E.fits equalities.now store.now }
        ensures first { IfOk result (λ first. first ≡ not (list_any (spec.is_match (E.alike equalities.now) owner subst.now) self.old.taken)) }
        ensures kept { result ≡ Ok true → self.new.taken ≡ self.old.taken ++ spec.taken owner subst.now ∷ [] }
        ensures again { result ≡ Ok false → self.new.taken ≡ self.old.taken }
        ensures err { OnErr result (self.new.taken ≡ self.old.taken) }
    {
        if self.is_taken(store, equalities, owner, subst)? {
            return Ok(false);
        }
        self.keep(owner, subst)?;
        Ok(true)
    }
}
