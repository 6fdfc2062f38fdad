//! What is said of a text: triggers, and the matches among the names of each goal's store.
ghost use Rattle.std.specs.Prelude.{◌≡◌};
ghost use Rattle.ae_core.specs.Signatures.{IsLawful};
ghost use Rattle.ae_known.specs.Index.{HasHeads};

use crate::closed::has_closed_constants;
use crate::facts::{assume_formula, enter_formula};
use crate::reading::problem_of;
use crate::rules::{fact, is_block, is_rule};
use crate::telling::{put_item, put_match, put_triggers};
use ae_core::formulas::Formula;
use ae_core::problems::{Item, Problem, Signature};
use ae_core::words::Word;
use ae_elaborate::release_problem;
use ae_inst::instances::Instances;
use ae_known::known::Known;
use ae_matches::matches::matches;
use ae_prooftext::put;
use ae_store::store::Store;
use ae_theory::constants::Constants;
use ae_theory::theory::{Equalities, Theory};
use ae_trigger::patterns::{Pattern, patterns};
use std::alloc::{AllocError, Global};

/// The lines of the matches of a trigger below a generation.
fn tell_matches<E: Equalities>(
    alloc: Global,
    signature: &Signature,
    store: &Store,
    equalities: &E,
    known: &Known,
    instances: &mut Instances,
    rule: &Word,
    owner: usize,
    trigger: usize,
    pattern: &Pattern,
    below: u32,
    out: &mut Vec<u8>,
) -> Result<(), AllocError>
    requires same { signature.now ≡ store.now.signature }
    requires fits { E.fits equalities.now store.now }
    requires entered { HasHeads store.now.nodes known.now }
{
    if !has_closed_constants(pattern) {
        return put(out, b"    open constants\n");
    }
    let found = matches(alloc, signature, store, equalities, pattern, below, known)?;
    for subst in found.as_slice() {
        let first = instances.take(store, equalities, owner, subst)?;
        put_match(out, signature, store, rule, trigger, below, subst, first)?;
    }
    Ok(())
}

/// The lines of the matches of a trigger below each generation.
fn tell_pattern<E: Equalities>(
    alloc: Global,
    signature: &Signature,
    store: &Store,
    equalities: &E,
    known: &Known,
    instances: &mut Instances,
    rule: &Word,
    owner: usize,
    trigger: usize,
    pattern: &Pattern,
    generations: u32,
    out: &mut Vec<u8>,
) -> Result<(), AllocError>
    requires same { signature.now ≡ store.now.signature }
    requires fits { E.fits equalities.now store.now }
    requires entered { HasHeads store.now.nodes known.now }
{
    for less in 0..generations {
        tell_matches(
            alloc,
            signature,
            store,
            equalities,
            known,
            instances,
            rule,
            owner,
            trigger,
            pattern,
            less + 1,
            out,
        )?;
    }
    Ok(())
}

/// The lines of the matches of an axiom that is instantiated.
fn tell_rule<E: Equalities>(
    alloc: Global,
    signature: &Signature,
    store: &Store,
    equalities: &E,
    known: &Known,
    instances: &mut Instances,
    rule: &Word,
    owner: usize,
    vars: usize,
    body: &Formula,
    generations: u32,
    out: &mut Vec<u8>,
) -> Result<(), AllocError>
    requires same { signature.now ≡ store.now.signature }
    requires fits { E.fits equalities.now store.now }
    requires entered { HasHeads store.now.nodes known.now }
{
    if !is_rule(vars, body) {
        return Ok(());
    }
    let made = patterns(alloc, signature, vars, body)?;
    for (trigger, pattern) in made.as_slice().iter().enumerate() {
        tell_pattern(
            alloc,
            signature,
            store,
            equalities,
            known,
            instances,
            rule,
            owner,
            trigger,
            pattern,
            generations,
            out,
        )?;
    }
    Ok(())
}

/// The lines of the matches of each axiom.
fn tell_rules<E: Equalities>(
    alloc: Global,
    signature: &Signature,
    store: &Store,
    equalities: &E,
    known: &Known,
    instances: &mut Instances,
    before: &[Item],
    generations: u32,
    out: &mut Vec<u8>,
) -> Result<(), AllocError>
    requires same { signature.now ≡ store.now.signature }
    requires fits { E.fits equalities.now store.now }
    requires entered { HasHeads store.now.nodes known.now }
{
    for (owner, item) in before.iter().enumerate() {
        if let Item::Axiom { name, vars, body } = item {
            tell_rule(
                alloc,
                signature,
                store,
                equalities,
                known,
                instances,
                name,
                owner,
                *vars,
                body,
                generations,
                out,
            )?;
        }
    }
    Ok(())
}

/// Gives the terms of the closed axioms names, of each one a generation later; answers how many there are.
fn enter_facts(
    alloc: Global,
    store: &mut Store,
    signature: &Signature,
    before: &[Item],
) -> Result<u32, AllocError>
    requires { signature.now ≡ store.old.signature }
    ensures { store.new.signature ≡ store.old.signature }
{
    let mut generation = 0u32;
    for item in before {
        if let Some(body) = fact(item) {
            enter_formula(alloc, store, signature, body, generation)?;
            generation = generation.saturating_add(1);
        }
    }
    Ok(generation)
}

/// Assumes the equations of the closed axioms.
fn assume_facts<T: Theory>(
    alloc: Global,
    store: &Store,
    theory: &mut T,
    before: &[Item],
) -> Result<(), AllocError>
    requires fits { T.fits theory.old store.now }
    ensures fits { T.fits theory.new store.now }
{
    for item in before {
        if let Some(body) = fact(item) {
            assume_formula(alloc, store, theory, true, body)?;
        }
    }
    Ok(())
}

/// What is said of a store with the names of a goal.
fn tell_store(
    alloc: Global,
    signature: &Signature,
    store: &Store,
    before: &[Item],
    goal: &Formula,
    generations: u32,
    out: &mut Vec<u8>,
) -> Result<(), AllocError>
    requires { signature.now ≡ store.now.signature }
{
    let known = Known::all(alloc, store)?;
    let mut instances = Instances::new(alloc);
    let mut theory = Constants::new(alloc);
    put(out, b"  each name alone\n")?;
    tell_rules(
        alloc,
        signature,
        store,
        &theory,
        &known,
        &mut instances,
        before,
        generations,
        out,
    )?;
    assume_facts(alloc, store, &mut theory, before)?;
    assume_formula(alloc, store, &mut theory, false, goal)?;
    put(out, b"  with the equations\n")?;
    tell_rules(
        alloc,
        signature,
        store,
        &theory,
        &known,
        &mut instances,
        before,
        generations,
        out,
    )
}

/// What is said of a goal behind these axioms and goals.
fn tell_goal(
    alloc: Global,
    signature: &Signature,
    before: &[Item],
    goal: &Formula,
    out: &mut Vec<u8>,
) -> Result<(), AllocError>
    requires { IsLawful signature.now }
{
    if is_block(goal) {
        let made = patterns(alloc, signature, 0, goal)?;
        return put_triggers(out, signature, made.as_slice());
    }
    let mut store = Store::new(alloc, signature)?;
    let facts = enter_facts(alloc, &mut store, signature, before)?;
    enter_formula(alloc, &mut store, signature, goal, 0)?;
    tell_store(alloc, signature, &store, before, goal, facts.max(1), out)
}

/// What is said of an axiom.
fn tell_axiom(
    alloc: Global,
    signature: &Signature,
    vars: usize,
    body: &Formula,
    out: &mut Vec<u8>,
) -> Result<(), AllocError> {
    if !is_rule(vars, body) {
        return Ok(());
    }
    let made = patterns(alloc, signature, vars, body)?;
    put_triggers(out, signature, made.as_slice())
}

/// What is said of a problem.
fn tell_problem(alloc: Global, problem: &Problem, out: &mut Vec<u8>) -> Result<(), AllocError>
    requires { IsLawful problem.now.signature }
{
    let items = problem.items.as_slice();
    for place in 0..items.len() {
        match &items[place] {
            Item::Axiom { name, vars, body } => {
                put_item(out, b"axiom ", name)?;
                tell_axiom(alloc, &problem.signature, *vars, body, out)?;
            }
            Item::Goal { name, body, .. } => {
                put_item(out, b"goal ", name)?;
                tell_goal(alloc, &problem.signature, &items[..place], body, out)?;
            }
        }
    }
    Ok(())
}

/// Puts what is said of a text.
pub fn tell_text(alloc: Global, text: &[u8], out: &mut Vec<u8>) -> Result<(), AllocError> {
    match problem_of(alloc, text) {
        None => put(out, b"no problem\n"),
        Some(problem) => {
            let told = tell_problem(alloc, &problem, out);
            release_problem(alloc, problem);
            told
        }
    }
}
