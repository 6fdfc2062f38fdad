//! The true literals and the clauses, and from where on the clauses have to be looked at.
ghost use Rattle.std.specs.Prelude.{◌≡◌, ◌<◌, ◌≤◌, ◌==◌, ◌++◌, ◌∷◌, [], ℕ, List, length, count_by, MatchBool, None, IfOk, OnOk, OnErr};
ghost use Rattle.std.specs.List.{Contains};
ghost use Rattle.ae_core.specs.declared.formulas.Lit.{Lit};
ghost use Rattle.ae_rules.specs.Clauses.{Clause};
ghost use Rattle.ae_explain.specs.Fronts.{AreRising, IsFront};
ghost use Rattle.ae_explain.specs.Levels.{level_of, greatest_of, literals_under};
ghost use Rattle.ae_explain.specs.Trail.{at, clause, place_in, AreFalse, IsLawful};
ghost use Rattle.ae_explain.specs.Hints.{Propagates};
ghost use Rattle.ae_propagation.specs.Settled.{Ends, Grown, HasTrue};
ghost use Rattle.ae_sat.specs.Inner.Kept.{IsKept};

use ae_core::formulas::{Clause, Lit};
use ae_explain::{Assigned, Learnt, Trail, conflict_clause};
use ae_propagation::propagation::Propagation;
use ae_propagation::settle::{Settled, is_true};
use ae_steps::Steps;
use std::alloc::{AllocError, Global};
use std::marker::{Brand, Model};
use std::sync::ledger::{Blank, Ledger};

/// Clauses and true literals. It keeps in mind by how many of the first literals the clauses are settled, so that no
/// clause is looked at without need. Contracts see the literals and the clauses alone.
#[derive(Drop)]
pub struct Propagator {
    propagation: Propagation,
    /// By the literals before this place no clause is false, and what a clause makes true is true. `None` where
    /// clauses came in or literals went since it was so.
    settled: Option<usize>,
}

impl Model for Propagator {
    ghost use Rattle.std.specs.Coded.{codes};
    ghost use Rattle.ae_core.specs.contracts.formulas.Formula as formula;
    ghost use Rattle.ae_propagation.specs.Contents.{Contents};
    ghost use Rattle.ae_sat.specs.Inner.Kept.{IsKept};

    ghost Value = { Contents };

    ghost coded = { Prim.hlevel (codes, formula.the_row.coded) };

    ghost view = { λ p. p.propagation };

    ghost invariant = { λ p. IsKept p.settled p.propagation.trail p.propagation.clauses };
}

/// Settles behind the literals by which the clauses are settled, or all.
fn settle_behind<L: Ledger>(
    propagation: &mut Propagation,
    settled: Option<usize>,
    blank: Blank,
) -> Result<Settled, AllocError>
    requires name { blank.name ≡ L.name }
    requires parts { blank.parts ≡ L.parts }
    requires some { 0 < blank.parts }
    requires lawful { IsLawful propagation.old.trail propagation.old.clauses }
    requires kept { IsKept settled propagation.old.trail propagation.old.clauses }
    ensures lawful { IsLawful propagation.new.trail propagation.new.clauses }
    ensures grown { Grown propagation.old.trail propagation.new.trail }
    ensures ends { IfOk result (λ r. Ends propagation.new.trail propagation.new.clauses r) }
    ensures clauses { propagation.new.clauses ≡ propagation.old.clauses }
{
    let mut steps = Steps::<L>::new(blank);
    match settled {
        Some(place) => propagation.settle(place, &mut steps),
        None => propagation.settle_all(&mut steps),
    }
}

/// Whether a clause has a true literal.
fn has_true(trail: &Trail, clause: &[Lit]) -> bool
    ensures { MatchBool result (HasTrue trail.now.assigned clause.now) (¬ HasTrue trail.now.assigned clause.now) }
{
    for lit in clause {
        if is_true(trail, lit) {
            return true;
        }
    }
    false
}

impl Propagator {
    /// No literals and no clauses.
    pub fn new(alloc: Global) -> Propagator
        ensures trail { result.trail ≡ [] }
        ensures clauses { result.clauses ≡ [] }
    {
        Propagator {
            propagation: Propagation::new(alloc),
            settled: None,
        }
    }

    /// The true literals in their order.
    pub fn trail(&self) -> &Trail
        ensures { result.now.assigned ≡ self.now.trail }
    {
        self.propagation.trail()
    }

    /// The clauses in their order.
    pub fn clauses(&self) -> &[Clause]
        ensures { result.now ≡ self.now.clauses }
    {
        self.propagation.clauses()
    }

    /// How many literals are true.
    pub fn len(&self) -> usize
        ensures { result ≡ length self.now.trail }
    {
        self.propagation.trail().len()
    }

    /// The literal at a place.
    pub fn lit_at(&self, place: usize) -> &Lit
        requires within { place < length self.now.trail }
        ensures { result.now ≡ (at self.now.trail place).lit }
    {
        self.propagation.trail().lit_at(place)
    }

    /// How many clauses there are.
    pub fn count(&self) -> usize
        ensures { result ≡ length self.now.clauses }
    {
        self.propagation.clauses().len()
    }

    /// The clause of a number.
    pub fn clause_at(&self, number: usize) -> &[Lit]
        requires within { number < length self.now.clauses }
        ensures { result.now ≡ clause self.now.clauses number }
    {
        self.propagation.clauses()[number].as_slice()
    }

    /// Whether the clause of a number has a true literal.
    pub fn is_satisfied(&self, number: usize) -> bool
        requires within { number < length self.now.clauses }
        ensures { MatchBool result (HasTrue self.now.trail (clause self.now.clauses number)) (¬ HasTrue self.now.trail (clause self.now.clauses number)) }
    {
        has_true(self.trail(), self.clause_at(number))
    }

    /// What is learnt from a false clause.
    pub fn learn_from(&self, alloc: Global, falsified: usize) -> Result<Learnt, AllocError>
        requires lawful { IsLawful self.now.trail self.now.clauses }
        requires within { falsified < length self.now.clauses }
        requires falsified { AreFalse self.now.trail (clause self.now.clauses falsified) }
        ensures false_ones { IfOk result (λ r. AreFalse self.now.trail r.clause) }
        ensures derived { IfOk result (λ r. Propagates self.now.clauses r.clause r.hints) }
        ensures empty { IfOk result (λ r. greatest_of self.now.trail (clause self.now.clauses falsified) ≡ 0 → r.clause ≡ []) }
        ensures one { IfOk result (λ r. let level = greatest_of self.now.trail (clause self.now.clauses falsified) in
            0 < level → count_by (λ m. level_of self.now.trail m == level) r.clause ≡ 1) }
        ensures highest { IfOk result (λ r. (m : Lit) → Contains r.clause m → level_of self.now.trail m ≤ greatest_of self.now.trail (clause self.now.clauses falsified)) }
        ensures level { IfOk result (λ r. r.level ≡ greatest_of self.now.trail (literals_under self.now.trail (greatest_of self.now.trail r.clause) r.clause)) }
    {
        conflict_clause(alloc, self.trail(), self.clauses(), falsified)
    }

    /// Takes in a clause behind the others. Refused memory leaves the clauses as they were.
    pub fn attach(&mut self, clause: Clause) -> Result<(), AllocError>
        ensures ok { OnOk result (self.new.clauses ≡ self.old.clauses ++ clause ∷ []) }
        ensures err { OnErr result (self.new.clauses ≡ self.old.clauses) }
        ensures trail { self.new.trail ≡ self.old.trail }
    {
        self.settled = None;
        self.propagation.attach(clause)
    }

    /// Gives up the last clause, if there is one. It takes no memory.
    pub fn detach(&mut self)
        ensures last { (kept : List Clause) (last : Clause) → self.old.clauses ≡ kept ++ last ∷ [] → self.new.clauses ≡ kept }
        ensures trail { self.new.trail ≡ self.old.trail }
    {
        self.settled = None;
        self.propagation.detach();
    }

    /// Puts a literal without a value at the end. Refused memory leaves the literals as they were.
    pub fn assign(&mut self, assigned: Assigned) -> Result<(), AllocError>
        requires new { place_in self.old.trail assigned.lit.formula ≡ None }
        ensures ok { OnOk result (self.new.trail ≡ self.old.trail ++ assigned ∷ []) }
        ensures err { OnErr result (self.new.trail ≡ self.old.trail) }
        ensures clauses { self.new.clauses ≡ self.old.clauses }
    {
        self.propagation.assign(assigned)
    }

    /// Drops the literals above a level. It takes no memory.
    pub fn back_to(&mut self, level: usize)
        requires rising { AreRising self.old.trail }
        ensures front { IsFront self.old.trail level self.new.trail }
        ensures clauses { self.new.clauses ≡ self.old.clauses }
    {
        self.settled = None;
        self.propagation.back_to(level);
    }

    /// Assigns the literals of unit clauses, each by its clause and at the last literal's level, until there is none,
    /// or a clause is false. It looks at all clauses where some came in or literals went since the last time, and else
    /// only at those that have the opposite of a literal that is new.
    pub fn settle(&mut self) -> Result<Settled, AllocError>
        requires lawful { IsLawful self.old.trail self.old.clauses }
        ensures lawful { IsLawful self.new.trail self.new.clauses }
        ensures grown { Grown self.old.trail self.new.trail }
        ensures ends { IfOk result (λ r. Ends self.new.trail self.new.clauses r) }
        ensures clauses { self.new.clauses ≡ self.old.clauses }
    {
        let before = self.settled;
        self.settled = None;
        let end = settle_behind::<Brand>(&mut self.propagation, before, Blank::new(1))?;
        if let Settled::Quiet = end {
            self.settled = Some(self.propagation.trail().len());
        }
        Ok(end)
    }
}
