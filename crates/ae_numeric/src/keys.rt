//! The keys of linear forms: opaque terms by their numbers.
ghost use Rattle.std.specs.Prelude.{◌≡◌, Some, None, [], ◌∷◌, ◌++◌, IfOk, OnOk, List, length};
ghost use Rattle.std.specs.Cmp.{partial_equiv_from_equiv, partial_order_from_agreeing_total};
ghost use Rattle.std.specs.Ordering.{eq_by_cmp};
ghost use Rattle.std.proofs.Common.{refl};
ghost use Rattle.std.proofs.lemmas.Cmp.{eq_by_cmp_equiv};
ghost use Rattle.ae_core.specs.Orders.{term_order};
ghost use Rattle.ae_core.specs.declared.terms.Term.{Term};
ghost use Rattle.ae_numeric.specs.Stated.{place_of, with_key};
ghost use Rattle.ae_numeric.specs.Inner.Keyed.{term_total, place_in};

use ae_core::lists::List;
use ae_core::orders::compare_terms;
use ae_core::terms::Term;
use std::alloc::{AllocError, Global};
use std::cmp::Ordering;
use std::collections::BTreeMap;
use std::marker::Model;

/// A term that is lent as a key.
#[derive(Drop)]
struct Key<'a> {
    term: &'a Term,
}

impl<'a> Model for Key<'a> {
    ghost use Rattle.std.specs.Coded.{codes};
    ghost use Rattle.ae_core.specs.declared.terms.Term.{Term};
    ghost use Rattle.ae_core.specs.contracts.terms.Term as term_contract;

    ghost Value = { Term };

    ghost coded = { Prim.hlevel (codes, term_contract.the_row.coded) };

    ghost view = { λ k. k.term.now };
}

/// The structural order of the terms.
impl<'a> Ord for Key<'a> {
    ghost cmp = { term_order };

    ghost total = { term_total };

    ghost matches_partial_cmp = { λ a b. refl };

    ghost matches_eq = { λ a b. refl };

    fn cmp(&self, other: &Key<'a>) -> Ordering {
        compare_terms(self.term, other.term)
    }
}

impl<'a> PartialOrd for Key<'a> {
    ghost partial_cmp = { λ a b. Some (term_order a b) };

    ghost laws = { partial_order_from_agreeing_total term_order term_total (λ a b. refl) (λ a b. refl) };

    fn partial_cmp(&self, other: &Key<'a>) -> Option<Ordering> {
        Some(compare_terms(self.term, other.term))
    }
}

impl<'a> Eq for Key<'a> {
    ghost laws = { eq_by_cmp_equiv term_total };
}

impl<'a> PartialEq for Key<'a> {
    ghost eq = { eq_by_cmp term_order };

    ghost laws = { partial_equiv_from_equiv (eq_by_cmp_equiv term_total) };

    fn eq(&self, other: &Key<'a>) -> bool {
        compare_terms(self.term, other.term).is_eq()
    }
}

/// The opaque terms of a computation, numbered in the order in which they became keys.
#[derive(Drop)]
pub struct Keys<'a> {
    terms: List<Key<'a>>,
    places: BTreeMap<Key<'a>, usize>,
}

impl<'a> Model for Keys<'a> {
    ghost use Rattle.std.specs.Prelude.{List};
    ghost use Rattle.std.specs.Coded.{codes};
    ghost use Rattle.std.specs.BTreeMap.{get};
    ghost use Rattle.ae_core.specs.Orders.{term_order};
    ghost use Rattle.ae_core.specs.contracts.terms.Term as term_contract;
    ghost use Rattle.ae_core.specs.declared.terms.Term.{Term};
    ghost use Rattle.ae_numeric.specs.Inner.Keyed.{IsIndex};

    ghost Value = { List Term };

    ghost coded = { Prim.hlevel (codes, term_contract.the_row.coded) };

    ghost view = { λ k. k.terms };

    ghost invariant = { λ k. IsIndex k.terms (get term_order k.places) };
}

/// Drops the last key.
fn drop_last<'a>(terms: &mut List<Key<'a>>)
    ensures { (kept : List Term) (last : Term) → terms.old ≡ kept ++ last ∷ [] → terms.new ≡ kept }
{
    match terms.pop() {
        Some(_last) => {}
        None => {}
    }
}

impl<'a> Keys<'a> {
    /// No terms.
    pub fn new(alloc: Global) -> Keys<'a>
        ensures { result ≡ [] }
    {
        Keys {
            terms: List::new(alloc),
            places: BTreeMap::new(alloc),
        }
    }

    /// A term that isn't there, behind the others.
    fn add(&mut self, term: &'a Term) -> Result<usize, AllocError>
        requires new { place_in self.old term.now ≡ None }
        ensures number { IfOk result (λ n. n ≡ length self.old) }
        ensures keys { OnOk result (self.new ≡ self.old ++ term.now ∷ []) }
    {
        let place = self.terms.len();
        self.terms.push(Key { term })?;
        match self.places.insert(Key { term }, place) {
            Ok(_) => Ok(place),
            Err(failed) => {
                drop_last(&mut self.terms);
                Err(AllocError::from(failed))
            }
        }
    }

    /// The number of a term, which is added where it isn't there.
    pub fn number_of(&mut self, term: &'a Term) -> Result<usize, AllocError>
        ensures number { IfOk result (λ n. n ≡ place_of self.old term.now) }
        ensures keys { OnOk result (self.new ≡ with_key self.old term.now) }
    {
        match self.places.get(&Key { term }).copied() {
            Some(place) => Ok(place),
            None => self.add(term),
        }
    }
}
