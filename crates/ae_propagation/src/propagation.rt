//! A trail with the clauses that it is propagated through: literals are numbers while clauses are tested.
ghost use Rattle.std.specs.Prelude.{◌≡◌, ℕ, ◌+◌, ◌<◌, ◌≤◌, ◌++◌, ◌∷◌, [], List, length, take, not, slice_index, slice_index_or, None, IfOk, OnOk, OnErr, MatchBool, MatchOption};
ghost use Rattle.ae_rules.specs.Clauses.{Clause};
ghost use Rattle.ae_explain.specs.Assignments.{number_in};
ghost use Rattle.ae_explain.specs.Trail.{at, clause, place_in, AreFalse, IsLawful};
ghost use Rattle.ae_explain.specs.Fronts.{AreRising, IsFront};
ghost use Rattle.ae_explain.specs.declared.trail.Assigned.{Assigned};
ghost use Rattle.ae_propagation.specs.Settled.{Ends, Grown, HasTrue, IsOpenAlone, Says};
ghost use Rattle.ae_propagation.specs.Watched.{AreQuietBy, IsQuietBy, against, pairs};
ghost use Rattle.ae_propagation.specs.Inner.Scan.{open_all};
ghost use Rattle.ae_propagation.specs.Inner.Finding.{none_listed, side};
ghost use Rattle.ae_propagation.specs.Inner.Coding.{IsCoded};

use crate::coded::{Coded, codes_at, give_up, no_clauses, number_for, take_in};
use crate::codes::{number_at, state_of};
use crate::occurrences::Occurrences;
use crate::settle::{ClauseState, Settled, unit_at};
use ae_core::formulas::Clause;
use ae_explain::{Assigned, Trail};
use ae_steps::Steps;
use std::alloc::{AllocError, Global};
use std::marker::Model;
use std::sync::ledger::Ledger;

/// A trail and the clauses that it is propagated through. Contracts see these two lists.
#[derive(Drop)]
pub struct Propagation {
    alloc: Global,
    coded: Coded,
    trail: Trail,
}

impl Model for Propagation {
    ghost use Rattle.std.specs.Coded.{codes};
    ghost use Rattle.ae_core.specs.contracts.formulas.Formula as formula;
    ghost use Rattle.ae_propagation.specs.Contents.{Contents};
    ghost use Rattle.ae_explain.specs.Assignments.{number_in};
    ghost use Rattle.ae_propagation.specs.Inner.Coding.{IsCoded};

    ghost Value = { Contents };

    ghost coded = { Prim.hlevel (codes, formula.the_row.coded) };

    ghost view = { λ p. record { trail = p.trail.assigned; clauses = p.coded.clauses } };

    ghost invariant = { λ p. IsCoded (number_in p.trail.numbers) p.coded };
}

/// The list of one of a formula's literals.
fn side_of(o: &Occurrences, positive: bool) -> &[usize]
    ensures { result.now ≡ side positive o.now }
{
    if positive {
        o.positive.as_slice()
    } else {
        o.negative.as_slice()
    }
}

/// How a clause stands to the trail, counted as one step. It compares no formulas.
fn state_at<L: Ledger>(
    coded: &Coded,
    trail: &Trail,
    number: usize,
    steps: &mut Steps<L>,
) -> ClauseState
    requires fit { IsCoded (number_in trail.now.numbers) coded.now }
    requires within { number < length coded.now.clauses }
    ensures state { Says trail.now.assigned (clause coded.now.clauses number) result }
    ensures step { steps.new ≡ steps.old + 1 }
{
    steps.tick();
    state_of(trail.values(), codes_at(&coded.codes, number))
}

/// Makes the one open literal of a clause true.
fn push_unit(
    alloc: Global,
    coded: &Coded,
    trail: &mut Trail,
    k: usize,
    p: usize,
) -> Result<(), AllocError>
    requires fit { IsCoded (number_in trail.old.numbers) coded.now }
    requires lawful { IsLawful trail.old.assigned coded.now.clauses }
    requires within { k < length coded.now.clauses }
    requires alone { IsOpenAlone trail.old.assigned (clause coded.now.clauses k) p }
    ensures fit { IsCoded (number_in trail.new.numbers) coded.now }
    ensures lawful { IsLawful trail.new.assigned coded.now.clauses }
    ensures grown { (first : List Assigned) → Grown first trail.old.assigned → Grown first trail.new.assigned }
    ensures falls { OnOk result (open_all trail.new.assigned coded.now.clauses < open_all trail.old.assigned coded.now.clauses) }
    ensures longer { OnOk result (length trail.new.assigned ≡ length trail.old.assigned + 1) }
    ensures made { OnOk result (HasTrue trail.new.assigned (clause coded.now.clauses k)) }
{
    let assigned = unit_at(alloc, coded.clauses.as_slice(), trail, k, p)?;
    let number = number_at(codes_at(&coded.codes, k), p);
    trail.assign_numbered(number, assigned)
}

/// Tests a clause, and assigns its last literal where it is unit; `true` where it is false.
fn look_at<L: Ledger>(
    alloc: Global,
    coded: &Coded,
    number: usize,
    trail: &mut Trail,
    steps: &mut Steps<L>,
) -> Result<bool, AllocError>
    requires fit { IsCoded (number_in trail.old.numbers) coded.now }
    requires lawful { IsLawful trail.old.assigned coded.now.clauses }
    requires within { number < length coded.now.clauses }
    ensures fit { IsCoded (number_in trail.new.numbers) coded.now }
    ensures lawful { IsLawful trail.new.assigned coded.now.clauses }
    ensures grown { (first : List Assigned) → Grown first trail.old.assigned → Grown first trail.new.assigned }
    ensures falls { OnOk result (open_all trail.new.assigned coded.now.clauses + length trail.new.assigned ≤ open_all trail.old.assigned coded.now.clauses + length trail.old.assigned) }
    ensures says { IfOk result (λ b. MatchBool b (AreFalse trail.new.assigned (clause coded.now.clauses number)) ((n : ℕ) → IsQuietBy (take n trail.new.assigned) trail.new.assigned (clause coded.now.clauses number))) }
    ensures step { steps.new ≡ steps.old + 1 }
{
    match state_at(coded, trail, number, steps) {
        ClauseState::False => Ok(true),
        ClauseState::Unit(place) => {
            push_unit(alloc, coded, trail, number, place)?;
            Ok(false)
        }
        ClauseState::True => Ok(false),
        ClauseState::Open => Ok(false),
    }
}

/// Tests the clauses of these numbers in turn, and assigns the literals of unit ones. Answers the first that is false.
fn look_at_each<L: Ledger>(
    alloc: Global,
    coded: &Coded,
    numbers: &[usize],
    trail: &mut Trail,
    steps: &mut Steps<L>,
) -> Result<Option<usize>, AllocError>
    requires fit { IsCoded (number_in trail.old.numbers) coded.now }
    requires lawful { IsLawful trail.old.assigned coded.now.clauses }
    requires within { (i : ℕ) → i < length numbers.now → slice_index numbers.now i < length coded.now.clauses }
    ensures fit { IsCoded (number_in trail.new.numbers) coded.now }
    ensures lawful { IsLawful trail.new.assigned coded.now.clauses }
    ensures grown { Grown trail.old.assigned trail.new.assigned }
    ensures falls { OnOk result (open_all trail.new.assigned coded.now.clauses + length trail.new.assigned ≤ open_all trail.old.assigned coded.now.clauses + length trail.old.assigned) }
    ensures says { IfOk result (λ o. MatchOption o
        ((n : ℕ) → n ≤ length trail.old.assigned → (i : ℕ) → i < length numbers.now → IsQuietBy (take n trail.new.assigned) trail.new.assigned (clause coded.now.clauses (slice_index numbers.now i)))
        (λ k. (k < length coded.now.clauses) × AreFalse trail.new.assigned (clause coded.now.clauses k))) }
    ensures steps { steps.new ≤ steps.old + length numbers.now }
{
    for i in 0..numbers.len() {
        if look_at(alloc, coded, numbers[i], trail, steps)? {
            return Ok(Some(numbers[i]));
        }
    }
    Ok(None)
}

/// Tests all clauses in turn, and assigns the literals of unit ones. Answers the first that is false.
fn look_at_all<L: Ledger>(
    alloc: Global,
    coded: &Coded,
    trail: &mut Trail,
    steps: &mut Steps<L>,
) -> Result<Option<usize>, AllocError>
    requires fit { IsCoded (number_in trail.old.numbers) coded.now }
    requires lawful { IsLawful trail.old.assigned coded.now.clauses }
    ensures fit { IsCoded (number_in trail.new.numbers) coded.now }
    ensures lawful { IsLawful trail.new.assigned coded.now.clauses }
    ensures grown { Grown trail.old.assigned trail.new.assigned }
    ensures says { IfOk result (λ o. MatchOption o (AreQuietBy (take (length trail.old.assigned) trail.new.assigned) trail.new.assigned coded.now.clauses)
        (λ k. (k < length coded.now.clauses) × AreFalse trail.new.assigned (clause coded.now.clauses k))) }
    ensures steps { steps.new ≤ steps.old + length coded.now.clauses }
{
    for number in 0..coded.clauses.len() {
        if look_at(alloc, coded, number, trail, steps)? {
            return Ok(Some(number));
        }
    }
    Ok(None)
}

/// The numbers of the clauses that have the opposite of a literal, rising.
fn numbers_against(coded: &Coded, number: usize, positive: bool) -> &[usize]
    requires within { number < length coded.now.table.items }
    ensures { result.now ≡ side (not positive) (slice_index_or coded.now.table.items number none_listed) }
{
    side_of(&coded.table[number], !positive)
}

/// Tests the clauses that have the opposite of the literal at a place. Answers one that is false.
fn look_against<L: Ledger>(
    alloc: Global,
    coded: &Coded,
    trail: &mut Trail,
    place: usize,
    steps: &mut Steps<L>,
) -> Result<Option<usize>, AllocError>
    requires fit { IsCoded (number_in trail.old.numbers) coded.now }
    requires lawful { IsLawful trail.old.assigned coded.now.clauses }
    requires within { place < length trail.old.assigned }
    requires quiet { AreQuietBy (take place trail.old.assigned) trail.old.assigned coded.now.clauses }
    ensures fit { IsCoded (number_in trail.new.numbers) coded.now }
    ensures lawful { IsLawful trail.new.assigned coded.now.clauses }
    ensures grown { Grown trail.old.assigned trail.new.assigned }
    ensures falls { OnOk result (open_all trail.new.assigned coded.now.clauses + length trail.new.assigned ≤ open_all trail.old.assigned coded.now.clauses + length trail.old.assigned) }
    ensures says { IfOk result (λ o. MatchOption o (AreQuietBy (take (place + 1) trail.new.assigned) trail.new.assigned coded.now.clauses)
        (λ k. (k < length coded.now.clauses) × AreFalse trail.new.assigned (clause coded.now.clauses k))) }
    ensures steps { steps.new ≤ steps.old + against coded.now.clauses (at trail.old.assigned place) }
{
    let number = trail.number_at(place);
    let numbers = numbers_against(coded, number, trail.lit_at(place).positive);
    look_at_each(alloc, coded, numbers, trail, steps)
}

/// Tests the clauses that have the opposite of a literal of the trail, from a place on, each literal in turn.
fn settle_from<L: Ledger>(
    alloc: Global,
    coded: &Coded,
    trail: &mut Trail,
    from: usize,
    steps: &mut Steps<L>,
) -> Result<Settled, AllocError>
    requires fit { IsCoded (number_in trail.old.numbers) coded.now }
    requires lawful { IsLawful trail.old.assigned coded.now.clauses }
    requires quiet { AreQuietBy (take from trail.old.assigned) trail.old.assigned coded.now.clauses }
    ensures fit { IsCoded (number_in trail.new.numbers) coded.now }
    ensures lawful { IsLawful trail.new.assigned coded.now.clauses }
    ensures grown { Grown trail.old.assigned trail.new.assigned }
    ensures ends { IfOk result (λ r. Ends trail.new.assigned coded.now.clauses r) }
    ensures bound { steps.new ≤ steps.old + pairs trail.new.assigned coded.now.clauses from }
{
    let mut place = from;
    while place < trail.len() {
        match look_against(alloc, coded, trail, place, steps)? {
            Some(number) => return Ok(Settled::Falsified(number)),
            None => place += 1,
        }
    }
    Ok(Settled::Quiet)
}

impl Propagation {
    /// No literal and no clause.
    pub fn new(alloc: Global) -> Propagation
        ensures trail { result.trail ≡ [] }
        ensures clauses { result.clauses ≡ [] }
    {
        Propagation {
            alloc,
            coded: no_clauses(alloc),
            trail: Trail::new(alloc),
        }
    }

    /// The true literals.
    pub fn trail(&self) -> &Trail
        ensures { result.now.assigned ≡ self.now.trail }
    {
        &self.trail
    }

    /// The clauses in their order.
    pub fn clauses(&self) -> &[Clause]
        ensures { result.now ≡ self.now.clauses }
    {
        self.coded.clauses.as_slice()
    }

    /// Takes in a clause behind the others. Refused memory leaves the clauses as they were.
    pub fn attach(&mut self, clause: Clause) -> Result<(), AllocError>
        ensures ok { OnOk result (self.new.clauses ≡ self.old.clauses ++ clause ∷ []) }
        ensures err { OnErr result (self.new.clauses ≡ self.old.clauses) }
        ensures trail { self.new.trail ≡ self.old.trail }
    {
        take_in(self.alloc, &mut self.coded, &mut self.trail, clause)
    }

    /// Gives up the last clause, if there is one. It takes no memory.
    pub fn detach(&mut self)
        ensures last { (kept : List Clause) (last : Clause) → self.old.clauses ≡ kept ++ last ∷ [] → self.new.clauses ≡ kept }
        ensures none { self.old.clauses ≡ [] → self.new.clauses ≡ [] }
        ensures trail { self.new.trail ≡ self.old.trail }
    {
        give_up(&mut self.coded);
    }

    /// Puts a literal at the end of the trail, where its formula must not stand. Refused memory leaves the trail as it
    /// was.
    pub fn assign(&mut self, assigned: Assigned) -> Result<(), AllocError>
        requires new { place_in self.old.trail assigned.lit.formula ≡ None }
        ensures ok { OnOk result (self.new.trail ≡ self.old.trail ++ assigned ∷ []) }
        ensures err { OnErr result (self.new.trail ≡ self.old.trail) }
        ensures clauses { self.new.clauses ≡ self.old.clauses }
    {
        let number = number_for(
            self.alloc,
            &mut self.coded,
            &mut self.trail,
            &assigned.lit.formula,
        )?;
        self.trail.assign_numbered(number, assigned)
    }

    /// Drops the trail's literals above a level, in time linear in those. It takes no memory.
    pub fn back_to(&mut self, level: usize)
        requires rising { AreRising self.old.trail }
        ensures front { IsFront self.old.trail level self.new.trail }
        ensures clauses { self.new.clauses ≡ self.old.clauses }
    {
        self.trail.back_to(level);
    }

    /// Assigns the literals of unit clauses, each by its clause and at the last literal's level, until there is none,
    /// or a clause is false. By the literals before `from` no clause may be false, and where they make all literals
    /// of a clause false but one, that one must be true. It tests a clause at most once for each literal from `from`
    /// on whose opposite it has. Refused memory leaves a trail that grew by unit clauses alone.
    pub fn settle<L: Ledger>(
        &mut self,
        from: usize,
        steps: &mut Steps<L>,
    ) -> Result<Settled, AllocError>
        requires lawful { IsLawful self.old.trail self.old.clauses }
        requires quiet { AreQuietBy (take from self.old.trail) self.old.trail self.old.clauses }
        ensures lawful { IsLawful self.new.trail self.new.clauses }
        ensures grown { Grown self.old.trail self.new.trail }
        ensures ends { IfOk result (λ r. Ends self.new.trail self.new.clauses r) }
        ensures bound { steps.new ≤ steps.old + pairs self.new.trail self.new.clauses from }
        ensures clauses { self.new.clauses ≡ self.old.clauses }
    {
        settle_from(self.alloc, &self.coded, &mut self.trail, from, steps)
    }

    /// The same for any lawful trail: it tests each clause once, and then those in which a literal becomes false.
    pub fn settle_all<L: Ledger>(&mut self, steps: &mut Steps<L>) -> Result<Settled, AllocError>
        requires lawful { IsLawful self.old.trail self.old.clauses }
        ensures lawful { IsLawful self.new.trail self.new.clauses }
        ensures grown { Grown self.old.trail self.new.trail }
        ensures ends { IfOk result (λ r. Ends self.new.trail self.new.clauses r) }
        ensures clauses { self.new.clauses ≡ self.old.clauses }
        ensures bound { steps.new ≤ steps.old + (length self.new.clauses + pairs self.new.trail self.new.clauses (length self.old.trail)) }
    {
        let from = self.trail.len();
        match look_at_all(self.alloc, &self.coded, &mut self.trail, steps)? {
            Some(number) => Ok(Settled::Falsified(number)),
            None => settle_from(self.alloc, &self.coded, &mut self.trail, from, steps),
        }
    }
}
