//! The steps, and the derivations that they give.
ghost use Rattle.std.specs.Prelude.{◌≡◌, ◌+◌, ◌<◌, List, [], ◌∷◌, ◌++◌, length, map, IsTrue, IfOk, OnOk, OnErr};
ghost use Rattle.std.specs.Prelude.{ℕ, false};
ghost use Rattle.std.specs.List.{AllByRecursion};
ghost use Rattle.ae_core.specs.declared.formulas.Lit.{Lit};
ghost use Rattle.ae_store.specs.Shapes.{shapes};
ghost use Rattle.ae_store.specs.Terms.{terms};
ghost use Rattle.ae_just.specs.Steps as spec;
ghost use Rattle.ae_just.specs.Steps.{IsAllowedStep, AreAllowed, AreWithin, IsStepWithin, IsStepOfNames, AreRuleFactorsWithin, tag_of, line_of, Fits};
ghost use Rattle.ae_just.specs.Needed.{AreNeeded, AreTags, Derives, IsRising, literals, tags};
ghost use Rattle.ae_just.specs.Inner.Emitting.{IsEmitted};
ghost use Rattle.ae_just.specs.Inner.Emitting as emitting;

use crate::needed::{needed, place};
use crate::sides::side_term;
use crate::steps::{Rule, Step};
use ae_core::formulas::{Formula, Lit};
use ae_core::lists::List;
use ae_core::proofs::{Deriv, EqLine, Scaled};
use ae_core::terms::Term;
use ae_store::store::Store;
use std::alloc::{AllocError, Global};
use std::marker::Model;

/// Steps, numbered from 0 in the order of entry.
#[derive(Drop)]
pub struct Justs {
    alloc: Global,
    steps: List<Step>,
}

impl Model for Justs {
    ghost use Rattle.std.specs.Prelude.{List};
    ghost use Rattle.std.specs.Coded.{coded_list};
    ghost use Rattle.ae_just.specs.declared.steps.Step.{Step};
    ghost use Rattle.ae_just.specs.contracts.steps.Step as step_contract;

    ghost Value = { List Step };

    ghost coded = { coded_list step_contract.the_row.coded };

    ghost use Rattle.ae_just.specs.Inner.Pending.{RestOnEarlier};

    ghost view = { λ j. j.steps };

    ghost invariant = { λ j. RestOnEarlier j.steps };
}

fn renamed_steps(
    alloc: Global,
    needed: &[usize],
    steps: &[usize],
) -> Result<List<usize>, AllocError>
    requires { IsRising needed.now }
    ensures { IfOk result (λ ks. ks ≡ map (emitting.place needed.now) steps.now) }
{
    let mut renamed = List::new(alloc);
    for step in steps {
        renamed.push(place(needed, *step))?;
    }
    Ok(renamed)
}

fn renamed_parts(
    alloc: Global,
    needed: &[usize],
    parts: &[Scaled],
) -> Result<List<Scaled>, AllocError>
    requires { IsRising needed.now }
    ensures { IfOk result (λ ps. ps ≡ map (spec.renamed (emitting.place needed.now)) parts.now) }
{
    let mut renamed = List::new(alloc);
    for part in parts {
        renamed.push(Scaled {
            factor: part.factor,
            line: place(needed, part.line),
        })?;
    }
    Ok(renamed)
}

fn renamed_rule(alloc: Global, needed: &[usize], rule: &Rule) -> Result<Rule, AllocError>
    requires { IsRising needed.now }
    ensures { IfOk result (λ r. r ≡ spec.renamed_rule (emitting.place needed.now) rule.now) }
{
    match rule {
        Rule::Hyp(tag) => Ok(Rule::Hyp(*tag)),
        Rule::Refl => Ok(Rule::Refl),
        Rule::Sym(k) => Ok(Rule::Sym(place(needed, *k))),
        Rule::Trans(j, k) => Ok(Rule::Trans(place(needed, *j), place(needed, *k))),
        Rule::Cong(ks) => Ok(Rule::Cong(renamed_steps(alloc, needed, ks.as_slice())?)),
        Rule::Ac => Ok(Rule::Ac),
        Rule::Lin { times, parts } => Ok(Rule::Lin {
            times: *times,
            parts: renamed_parts(alloc, needed, parts.as_slice())?,
        }),
        Rule::Field => Ok(Rule::Field),
        Rule::Fields(ks) => Ok(Rule::Fields(renamed_steps(alloc, needed, ks.as_slice())?)),
    }
}

fn line_by(hyp: usize, left: Term, right: Term, rule: Rule) -> EqLine
    ensures { result ≡ spec.line_by hyp left right rule }
{
    match rule {
        Rule::Hyp(_) => EqLine::EqHyp { left, right, hyp },
        Rule::Refl => EqLine::EqRefl { left, right },
        Rule::Sym(line) => EqLine::EqSym { left, right, line },
        Rule::Trans(first, second) => EqLine::EqTrans {
            left,
            right,
            first,
            second,
        },
        Rule::Cong(lines) => EqLine::EqCong { left, right, lines },
        Rule::Ac => EqLine::EqAc { left, right },
        Rule::Lin { times, parts } => EqLine::EqLin {
            left,
            right,
            times,
            parts,
        },
        Rule::Field => EqLine::EqField { left, right },
        Rule::Fields(lines) => EqLine::EqFields { left, right, lines },
    }
}

/// The line of a step.
fn line(
    alloc: Global,
    store: &Store,
    step: &Step,
    needed: &[usize],
    hyp: usize,
) -> Result<EqLine, AllocError>
    requires within { IsStepWithin (length (terms (shapes store.now.nodes))) step.now }
    requires rising { IsRising needed.now }
    ensures { IfOk result (λ l. l ≡ line_of (terms (shapes store.now.nodes)) (emitting.place needed.now) hyp step.now) }
{
    let left = side_term(alloc, store, &step.left)?;
    let right = side_term(alloc, store, &step.right)?;
    let rule = renamed_rule(alloc, needed, &step.rule)?;
    Ok(line_by(hyp, left, right, rule))
}

/// The literal that a step assumes.
fn literal(alloc: Global, store: &Store, step: &Step) -> Result<Lit, AllocError>
    requires { IsStepWithin (length (terms (shapes store.now.nodes))) step.now }
    ensures { IfOk result (λ l. l ≡ spec.literal (terms (shapes store.now.nodes)) step.now) }
{
    let left = side_term(alloc, store, &step.left)?;
    let right = side_term(alloc, store, &step.right)?;
    Ok(Lit {
        positive: true,
        formula: Formula::Eq { left, right },
    })
}

/// Appends the literal that a step assumes, if it is an assumption.
fn push_assumed(
    alloc: Global,
    store: &Store,
    step: &Step,
    hyps: &mut List<Lit>,
) -> Result<(), AllocError>
    requires { IsStepWithin (length (terms (shapes store.now.nodes))) step.now }
    ensures { OnOk result (hyps.new ≡ hyps.old ++ spec.assumed (spec.literal (terms (shapes store.now.nodes)) step.now) step.now.rule) }
{
    if is_hyp(&step.rule) {
        hyps.push(literal(alloc, store, step)?)?;
    }
    Ok(())
}

/// Whether a rule is an assumption.
fn is_hyp(rule: &Rule) -> bool
    ensures yes { (l : Lit) → IsTrue result → spec.assumed l rule.now ≡ l ∷ [] }
    ensures no { (l : Lit) → result ≡ false → spec.assumed l rule.now ≡ [] }
{
    match rule {
        Rule::Hyp(_) => true,
        Rule::Refl => false,
        Rule::Sym(_) => false,
        Rule::Trans(_, _) => false,
        Rule::Cong(_) => false,
        Rule::Ac => false,
        Rule::Lin { .. } => false,
        Rule::Field => false,
        Rule::Fields(_) => false,
    }
}

/// The literals that these steps assume.
fn hypotheses(
    alloc: Global,
    store: &Store,
    steps: &[Step],
    needed: &[usize],
) -> Result<List<Lit>, AllocError>
    requires within { AreWithin (length (terms (shapes store.now.nodes))) steps.now }
    requires needed { AllByRecursion (λ k. k < length steps.now) needed.now }
    ensures { IfOk result (λ hs. hs ≡ literals (terms (shapes store.now.nodes)) steps.now needed.now) }
{
    let mut hyps = List::new(alloc);
    for step in needed {
        push_assumed(alloc, store, &steps[*step], &mut hyps)?;
    }
    Ok(hyps)
}

/// Appends the tag of an assumption.
fn push_tag(rule: &Rule, found: &mut List<usize>) -> Result<(), AllocError>
    ensures { OnOk result (found.new ≡ found.old ++ tag_of rule.now) }
{
    match rule {
        Rule::Hyp(tag) => found.push(*tag),
        Rule::Refl => Ok(()),
        Rule::Sym(_) => Ok(()),
        Rule::Trans(_, _) => Ok(()),
        Rule::Cong(_) => Ok(()),
        Rule::Ac => Ok(()),
        Rule::Lin { .. } => Ok(()),
        Rule::Field => Ok(()),
        Rule::Fields(_) => Ok(()),
    }
}

/// The tags of the assumptions among these steps.
fn tags_of(alloc: Global, steps: &[Step], needed: &[usize]) -> Result<List<usize>, AllocError>
    requires needed { AllByRecursion (λ k. k < length steps.now) needed.now }
    ensures { IfOk result (λ ns. ns ≡ tags steps.now needed.now) }
{
    let mut found = List::new(alloc);
    for step in needed {
        push_tag(&steps[*step].rule, &mut found)?;
    }
    Ok(found)
}

/// One more than a number, where the step is an assumption.
fn next_hyp(count: usize, limit: usize, rule: &Rule) -> usize
    requires { count < limit }
    ensures { result ≡ count + length (tag_of rule.now) }
{
    match rule {
        Rule::Hyp(_) => count + 1,
        Rule::Refl => count,
        Rule::Sym(_) => count,
        Rule::Trans(_, _) => count,
        Rule::Cong(_) => count,
        Rule::Ac => count,
        Rule::Lin { .. } => count,
        Rule::Field => count,
        Rule::Fields(_) => count,
    }
}

/// The lines of the steps that a step rests on.
fn lines_of(
    alloc: Global,
    store: &Store,
    steps: &[Step],
    id: usize,
    needed: &[usize],
) -> Result<List<EqLine>, AllocError>
    requires fits { Fits store.now.signature (terms (shapes store.now.nodes)) steps.now }
    requires needed { AreNeeded steps.now id needed.now }
    requires within { AllByRecursion (λ k. k < length steps.now) needed.now }
    ensures { IfOk result (λ ls. (c : ℕ) × IsEmitted store.now.signature (terms (shapes store.now.nodes)) steps.now needed.now
        (literals (terms (shapes store.now.nodes)) steps.now needed.now) (length needed.now) ls c) }
{
    let mut lines = List::new(alloc);
    let mut count = 0;
    for number in needed {
        let step = &steps[*number];
        let next = line(alloc, store, step, needed, count)?;
        lines.push(next)?;
        count = next_hyp(count, needed.len(), &step.rule);
    }
    Ok(lines)
}

impl Justs {
    /// No step. It takes no memory.
    pub fn new(alloc: Global) -> Justs
        ensures { result ≡ [] }
    {
        Justs {
            alloc,
            steps: List::new(alloc),
        }
    }

    /// Appends a step that is allowed after the earlier ones, whose sides are made of names, and whose factors have 127 bits
    /// beside their signs. Refused memory leaves the steps as they were.
    pub fn add(&mut self, store: &Store, step: Step) -> Result<usize, AllocError>
        requires allowed { IsAllowedStep store.now.signature (terms (shapes store.now.nodes)) self.old step }
        requires built { IsStepOfNames store.now.signature (terms (shapes store.now.nodes)) step }
        requires factors { AreRuleFactorsWithin step.rule }
        requires fits { Fits store.now.signature (terms (shapes store.now.nodes)) self.old }
        ensures ok { OnOk result (self.new ≡ self.old ++ step ∷ []) }
        ensures number { IfOk result (λ n. n ≡ length self.old) }
        ensures err { OnErr result (self.new ≡ self.old) }
        ensures fits { Fits store.now.signature (terms (shapes store.now.nodes)) self.new }
    {
        let number = self.steps.len();
        self.steps.push(step)?;
        Ok(number)
    }

    /// The steps, in the order of entry. It takes no memory.
    pub fn steps(&self) -> &[Step]
        ensures { result.now ≡ self.now }
    {
        self.steps.as_slice()
    }

    /// The tags of the assumptions that a step rests on, one for each assumption in the order of entry.
    pub fn literals_of(&self, id: usize) -> Result<List<usize>, AllocError>
        requires { id < length self.now }
        ensures { IfOk result (λ found. AreTags self.now id found) }
    {
        let needed = needed(self.alloc, self.steps.as_slice(), id)?;
        tags_of(self.alloc, self.steps.as_slice(), needed.as_slice())
    }

    /// Lines that derive a step's equation from the literals that it rests on: one line for each step that it rests on,
    /// in the order of entry. The time is that of what is written; steps that it doesn't rest on aren't looked at.
    pub fn block_of(&self, store: &Store, id: usize) -> Result<Deriv, AllocError>
        requires id { id < length self.now }
        requires fits { Fits store.now.signature (terms (shapes store.now.nodes)) self.now }
        ensures { IfOk result (λ d. Derives store.now.signature (terms (shapes store.now.nodes)) self.now id d) }
    {
        let needed = needed(self.alloc, self.steps.as_slice(), id)?;
        let hyps = hypotheses(self.alloc, store, self.steps.as_slice(), needed.as_slice())?;
        let lines = lines_of(
            self.alloc,
            store,
            self.steps.as_slice(),
            id,
            needed.as_slice(),
        )?;
        Ok(Deriv { hyps, lines })
    }
}
