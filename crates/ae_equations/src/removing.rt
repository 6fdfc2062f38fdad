//! Taking out rules, whose equations then wait.
ghost use Rattle.std.specs.Prelude.{◌≡◌, ◌<◌, ◌++◌, ℕ, List, map, Option, IfOk, OnErr};
ghost use Rattle.ae_pmap.specs.Forest.{present, IsRoot, Lasts as MapLasts, StandsFor as MapStandsFor};
ghost use Rattle.ae_monoid.specs.declared.rules.Kept.{Kept};
ghost use Rattle.ae_monoid.specs.Rules.{rule_at};
ghost use Rattle.ae_monoid.specs.Changes.{AreTakenOut, IsReducible};
ghost use Rattle.ae_monoid.specs.Versions.{Fits as RulesFit, Lasts as RulesLast, StandsFor as RulesStandFor};
ghost use Rattle.ae_equations.specs.declared.queue.Waiting.{Waiting};
ghost use Rattle.ae_equations.specs.Queued.{waiting, equation_of};
ghost use Rattle.ae_equations.specs.Stale.{IsStale};
ghost use Rattle.ae_equations.specs.Versions.{Lasts};
ghost use Rattle.ae_equations.specs.Inner.Placed.{ArePlaced};

use crate::equations::Equations;
use crate::queue::{Queue, push_each};
use crate::stale::stale_out;
use ae_core::lists::List;
use ae_monoid::{PendingPair, Rules, Shared as RulesShared};
use ae_num::forms::Name;
use ae_pmap::Version;
use ae_steps::Steps;
use std::alloc::{AllocError, Global};
use std::marker::Brand;
use std::sync::ledger::{Blank, Ledger};

/// The rules and the equations before a change, to go back to.
#[derive(Clone, Copy)]
pub(crate) struct Saved {
    rules: RulesShared,
    places: Version,
    next: usize,
}

/// What there is before a change.
pub(crate) fn before<L: Ledger>(rules: &Rules, queue: &Queue, steps: &mut Steps<L>) -> Saved
    ensures rules { RulesStandFor rules.now result.rules (λ n. rule_at rules.now n) rules.now.next }
    ensures places { MapStandsFor queue.now.places result.places (present queue.now.places) }
    ensures next { result.next ≡ queue.now.next }
{
    Saved {
        rules: rules.share(steps),
        places: queue.places.share(steps),
        next: queue.next,
    }
}

/// Goes back to what there was.
pub(crate) fn undo<L: Ledger>(
    rules: &mut Rules,
    queue: &mut Queue,
    before: &Saved,
    steps: &mut Steps<L>,
)
    requires rules { RulesFit rules.old before.now.rules }
    requires places { IsRoot queue.old.places before.now.places }
    ensures rules { (kept : ℕ → Option Kept) (len : ℕ) → RulesStandFor rules.old before.now.rules kept len → (n : ℕ) → rule_at rules.new n ≡ kept n }
    ensures len { (kept : ℕ → Option Kept) (len : ℕ) → RulesStandFor rules.old before.now.rules kept len → rules.new.next ≡ len }
    ensures places { (ps : List (ℕ × Waiting)) → MapStandsFor queue.old.places before.now.places ps → present queue.new.places ≡ ps }
    ensures next { queue.new.next ≡ before.now.next }
    ensures rules_last { RulesLast rules.old rules.new }
    ensures places_last { MapLasts queue.old.places queue.new.places }
{
    rules.back(&before.rules, steps);
    queue.places.back(before.places, steps);
    queue.next = before.next;
}

/// Takes out the rules with stale names, and puts their equations behind the others. A refusal leaves some of it done.
fn stale_moved(
    alloc: Global,
    rules: &mut Rules,
    queue: &mut Queue,
    reps: &[Name],
) -> Result<List<PendingPair>, AllocError>
    requires placed { ArePlaced queue.old }
    ensures placed { ArePlaced queue.new }
    ensures pairs { IfOk result (λ pairs. AreTakenOut (λ n. rule_at rules.old n) (λ n. rule_at rules.new n) (λ n. IsStale reps.now (rule_at rules.old n)) pairs) }
    ensures waiting { IfOk result (λ pairs. waiting queue.new ≡ waiting queue.old ++ map equation_of pairs) }
    ensures len { rules.new.next ≡ rules.old.next }
    ensures rules_last { RulesLast rules.old rules.new }
    ensures places_last { MapLasts queue.old.places queue.new.places }
{
    let pairs = stale_out(alloc, rules, reps)?;
    push_each(alloc, queue, pairs.as_slice())?;
    Ok(pairs)
}

/// Takes out the rules that others reduce, and puts their equations behind the others. A refusal leaves some of it done.
fn reducible_moved(
    alloc: Global,
    rules: &mut Rules,
    queue: &mut Queue,
) -> Result<List<PendingPair>, AllocError>
    requires placed { ArePlaced queue.old }
    ensures placed { ArePlaced queue.new }
    ensures pairs { IfOk result (λ pairs. AreTakenOut (λ n. rule_at rules.old n) (λ n. rule_at rules.new n) (λ n. IsReducible (λ m. rule_at rules.old m) n) pairs) }
    ensures waiting { IfOk result (λ pairs. waiting queue.new ≡ waiting queue.old ++ map equation_of pairs) }
    ensures len { rules.new.next ≡ rules.old.next }
    ensures rules_last { RulesLast rules.old rules.new }
    ensures places_last { MapLasts queue.old.places queue.new.places }
{
    let pairs = rules.collapse()?;
    push_each(alloc, queue, pairs.as_slice())?;
    Ok(pairs)
}

impl Equations {
    /// The same as `release_stale`, counted by a ledger of its own: a refusal goes back to what was shared first.
    fn release_counted<L: Ledger>(
        &mut self,
        reps: &[Name],
        blank: Blank,
    ) -> Result<List<PendingPair>, AllocError>
        requires brand { blank.name ≡ L.name }
        requires parts { blank.parts ≡ L.parts }
        requires some { 0 < blank.parts }
        ensures pairs { IfOk result (λ pairs. AreTakenOut (λ n. rule_at self.old.rules n) (λ n. rule_at self.new.rules n) (λ n. IsStale reps.now (rule_at self.old.rules n)) pairs) }
        ensures waiting { IfOk result (λ pairs. waiting self.new.queue ≡ waiting self.old.queue ++ map equation_of pairs) }
        ensures err { OnErr result ((n : ℕ) → rule_at self.new.rules n ≡ rule_at self.old.rules n) }
        ensures err_waiting { OnErr result (waiting self.new.queue ≡ waiting self.old.queue) }
        ensures len { self.new.rules.next ≡ self.old.rules.next }
        ensures paired { self.new.pairs ≡ self.old.pairs }
        ensures lasts { Lasts self.old self.new }
    {
        let mut steps = Steps::<L>::new(blank);
        let shared = before(&self.rules, &self.queue, &mut steps);
        match stale_moved(self.alloc, &mut self.rules, &mut self.queue, reps) {
            Ok(pairs) => Ok(pairs),
            Err(refused) => {
                undo(&mut self.rules, &mut self.queue, &shared, &mut steps);
                Err(refused)
            }
        }
    }

    /// Takes out the rules whose left sides have a name that isn't its own representative, and answers their equations,
    /// which from then on wait behind the others. Names beyond the list of representatives are their own. A refusal
    /// leaves all as before.
    pub fn release_stale(&mut self, reps: &[Name]) -> Result<List<PendingPair>, AllocError>
        ensures pairs { IfOk result (λ pairs. AreTakenOut (λ n. rule_at self.old.rules n) (λ n. rule_at self.new.rules n) (λ n. IsStale reps.now (rule_at self.old.rules n)) pairs) }
        ensures waiting { IfOk result (λ pairs. waiting self.new.queue ≡ waiting self.old.queue ++ map equation_of pairs) }
        ensures err { OnErr result ((n : ℕ) → rule_at self.new.rules n ≡ rule_at self.old.rules n) }
        ensures err_waiting { OnErr result (waiting self.new.queue ≡ waiting self.old.queue) }
        ensures len { self.new.rules.next ≡ self.old.rules.next }
        ensures paired { self.new.pairs ≡ self.old.pairs }
        ensures lasts { Lasts self.old self.new }
    {
        self.release_counted::<Brand>(reps, Blank::new(1))
    }

    /// The same as `collapse`, counted by a ledger of its own: a refusal goes back to what was shared first.
    fn collapse_counted<L: Ledger>(&mut self, blank: Blank) -> Result<List<PendingPair>, AllocError>
        requires brand { blank.name ≡ L.name }
        requires parts { blank.parts ≡ L.parts }
        requires some { 0 < blank.parts }
        ensures pairs { IfOk result (λ pairs. AreTakenOut (λ n. rule_at self.old.rules n) (λ n. rule_at self.new.rules n) (λ n. IsReducible (λ m. rule_at self.old.rules m) n) pairs) }
        ensures waiting { IfOk result (λ pairs. waiting self.new.queue ≡ waiting self.old.queue ++ map equation_of pairs) }
        ensures err { OnErr result ((n : ℕ) → rule_at self.new.rules n ≡ rule_at self.old.rules n) }
        ensures err_waiting { OnErr result (waiting self.new.queue ≡ waiting self.old.queue) }
        ensures len { self.new.rules.next ≡ self.old.rules.next }
        ensures paired { self.new.pairs ≡ self.old.pairs }
        ensures lasts { Lasts self.old self.new }
    {
        let mut steps = Steps::<L>::new(blank);
        let shared = before(&self.rules, &self.queue, &mut steps);
        match reducible_moved(self.alloc, &mut self.rules, &mut self.queue) {
            Ok(pairs) => Ok(pairs),
            Err(refused) => {
                undo(&mut self.rules, &mut self.queue, &shared, &mut steps);
                Err(refused)
            }
        }
    }

    /// Takes out the rules whose left sides another rule reduces, and answers their equations, which from then on wait
    /// behind the others. No rule that stays reduces another's left side. A refusal leaves all as before.
    pub fn collapse(&mut self) -> Result<List<PendingPair>, AllocError>
        ensures pairs { IfOk result (λ pairs. AreTakenOut (λ n. rule_at self.old.rules n) (λ n. rule_at self.new.rules n) (λ n. IsReducible (λ m. rule_at self.old.rules m) n) pairs) }
        ensures alone { IfOk result (λ pairs. (n : ℕ) → IsReducible (λ m. rule_at self.new.rules m) n → ⊥) }
        ensures waiting { IfOk result (λ pairs. waiting self.new.queue ≡ waiting self.old.queue ++ map equation_of pairs) }
        ensures err { OnErr result ((n : ℕ) → rule_at self.new.rules n ≡ rule_at self.old.rules n) }
        ensures err_waiting { OnErr result (waiting self.new.queue ≡ waiting self.old.queue) }
        ensures len { self.new.rules.next ≡ self.old.rules.next }
        ensures paired { self.new.pairs ≡ self.old.pairs }
        ensures lasts { Lasts self.old self.new }
    {
        self.collapse_counted::<Brand>(Blank::new(1))
    }
}
