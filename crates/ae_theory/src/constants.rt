//! The theory of constants: each term is taken as a constant, and equations between terms of one sort other than `bool` make their names the same.
ghost use Rattle.std.specs.Prelude.{◌≡◌, [], ℕ, None, Some};
ghost use Rattle.ae_theory.specs.declared.theory.Outcome.TheVariants.{Complete, Conflict};
ghost use Rattle.ae_store.specs.Stores.{Stored};
ghost use Rattle.ae_theory.specs.Classes.{FitsFrom};
ghost use Rattle.ae_theory.specs.Paths.{standing};

use crate::chains::{are_same, conflict_at, push_node, same_names};
use crate::explaining::explained;
use crate::naming::edge_of;
use crate::nodes::Node;
use crate::theory::{Equalities, Explained, Fail, Outcome, Theory};
use ae_core::copies::copy_lit;
use ae_core::formulas::Lit;
use ae_core::lists::List;
use ae_journal::journal::Journal;
use ae_num::forms::Name;
use ae_steps::Steps;
use ae_store::store::Store;
use std::alloc::{AllocError, Global};
use std::marker::Model;
use std::sync::ledger::Ledger;

/// What a search for a clash finds.
fn outcome(found: Option<usize>) -> Outcome
    ensures complete { result ≡ Complete → found ≡ None }
    ensures conflict { (k : ℕ) → result ≡ Conflict k → found ≡ Some k }
{
    match found {
        Some(number) => Outcome::Conflict(number),
        None => Outcome::Complete,
    }
}

/// The assumed literals, kept so that each earlier state can come back: no node is ever overwritten.
#[derive(Drop)]
pub struct Constants {
    nodes: List<Node>,
    last: usize,
}

impl Model for Constants {
    ghost use Rattle.std.specs.Prelude.{◌≤◌, length};
    ghost use Rattle.std.specs.Coded.{codes};
    ghost use Rattle.ae_core.specs.contracts.formulas.Formula as formula;
    ghost use Rattle.ae_theory.specs.Paths.{Paths};
    ghost use Rattle.ae_theory.specs.Inner.Trees.{IsTree};

    ghost Value = { Paths };

    ghost coded = { Prim.hlevel (codes, formula.the_row.coded) };

    ghost view = { λ o. record { nodes = o.nodes; last = o.last } };

    ghost invariant = { λ o. IsTree o.nodes × (o.last ≤ length o.nodes) };
}

impl Constants {
    /// It has assumed nothing.
    pub fn new(alloc: Global) -> Constants
        ensures nothing { standing result ≡ [] }
        // It fits each store.
        ensures fits { (s : Stored) → FitsFrom result.nodes s }
    {
        let nodes = List::new(alloc);
        Constants { nodes, last: 0 }
    }
}

impl Equalities for Constants {
    ghost use Rattle.std.specs.Prelude.{◌≡◌, IsTrue, nat_eq, slice_get};
    ghost use Rattle.std.proofs.Common.{subst};
    ghost use Rattle.std.proofs.lemmas.Bool.{eqb-true};
    ghost use Rattle.ae_base.proofs.Tests.{nat_eq_itself};
    ghost use Rattle.ae_theory.specs.Paths.{standing};
    ghost use Rattle.ae_theory.specs.Classes.{FitsFrom, class_of, extends_itself, extends_more};

    ghost fits = { λ o s. FitsFrom o.nodes s };

    ghost alike = { λ o m n. nat_eq (class_of (standing o) m) (class_of (standing o) n) };

    fn same(&self, left: Name, right: Name) -> bool {
        are_same(self.nodes.as_slice(), self.last, left, right)
    }

    fn equals(&self, alloc: Global, store: &Store, name: Name) -> Result<List<Name>, AllocError> {
        same_names(alloc, self.nodes.as_slice(), self.last, name, store.len())
    }

    ghost reflexive = { λ o n. nat_eq_itself (class_of (standing o) n) };

    ghost symmetric = { λ o m n h. subst (λ k. IsTrue (nat_eq k (class_of (standing o) m))) (eqb-true (class_of (standing o) m) (class_of (standing o) n) h) (nat_eq_itself (class_of (standing o) m)) };

    ghost transitive = { λ o l m n h k. subst (λ w. IsTrue (nat_eq (class_of (standing o) l) w)) (eqb-true (class_of (standing o) m) (class_of (standing o) n) k) h };

    ghost sorted = { λ o s f m n h. (f s (extends_itself s)).sorted o.last m n (eqb-true (class_of (standing o) m) (class_of (standing o) n) h) };

    ghost fits_more = { λ o a b e f t g. f t (extends_more a b t e g) };
}

impl Theory for Constants {
    ghost use Rattle.std.specs.Prelude.{map};
    ghost use Rattle.ae_theory.specs.Paths.{standing};
    ghost use Rattle.ae_theory.specs.Classes.{tagged, IsConflict, IsMark, NoneClashes};

    type Mark = usize;

    ghost assumed = { λ o. map tagged (standing o) };

    ghost fits_mark = { λ o m then. IsMark o m then };

    ghost own_conflict = { λ o k. IsConflict o k };

    ghost is_complete = { λ o s. NoneClashes (standing o) };

    ghost in_step = { λ o js. Unit {0} };

    // It notes nothing.
    ghost may_note = { λ o s n. Unit {0} };

    fn assume(
        &mut self,
        alloc: Global,
        store: &Store,
        lit: &Lit,
        tag: usize,
    ) -> Result<(), AllocError> {
        let copy = copy_lit(alloc, lit)?;
        let edge = edge_of(store, lit)?;
        push_node(&mut self.nodes, self.last, copy, tag, edge)?;
        self.last = self.nodes.len();
        Ok(())
    }

    fn saturate(
        &mut self,
        _alloc: Global,
        _store: &Store,
        _journal: &mut Journal,
    ) -> Result<Outcome, Fail> {
        Ok(outcome(conflict_at(self.nodes.as_slice(), self.last)))
    }

    fn mark<L: Ledger>(&self, _steps: &mut Steps<L>) -> usize {
        self.last
    }

    fn restore<L: Ledger>(&mut self, mark: &usize, _steps: &mut Steps<L>) {
        self.last = *mark;
    }

    fn explain(
        &self,
        alloc: Global,
        store: &Store,
        conflict: usize,
    ) -> Result<Explained, AllocError> {
        explained(alloc, store, self.nodes.as_slice(), self.last, conflict)
    }

    ghost silent = { λ o js j s h. tt };
}
