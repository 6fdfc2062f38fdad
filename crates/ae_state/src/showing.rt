//! The system that is shown.
ghost use Rattle.std.specs.Prelude.{◌≡◌, ◌≤◌, ◌++◌, length, take, option_copied, IfOk, OnOk};
ghost use Rattle.std.specs.List.{AllByRecursion};
ghost use Rattle.ae_monoid.specs.Rules.{rule_at};
ghost use Rattle.ae_settled.specs.Held.{entries, entry_in};
ghost use Rattle.ae_sweeps.specs.Given.{entry_of, entries_of};
ghost use Rattle.ae_theory.specs.Names.{terms_in};
ghost use Rattle.ae_value_table.specs.Table.{values as values_of_names};
ghost use Rattle.ae_state.specs.Names.{IsWrittenRising, system_now};
ghost use Rattle.ae_state.specs.Fitting.{FitsStore};

use crate::holding::Holding;
use ae_core::copies::copy_sorts;
use ae_core::lists::List;
use ae_core::problems::AcSymbol;
use ae_core::terms::Term;
use ae_journal::systems::{RuleEntry, System};
use ae_monoid::{Kept, Rules};
use ae_num::forms::Value;
use ae_store::store::Store;
use ae_value_table::Values;
use std::alloc::{AllocError, Global};

/// The terms of the first names, so many.
fn first_terms(alloc: Global, store: &Store, count: usize) -> Result<List<Term>, AllocError>
    requires { count ≤ length store.now.nodes }
    ensures { IfOk result (λ ts. ts ≡ take count (terms_in store.now)) }
{
    let mut terms = List::new(alloc);
    for name in 0..count {
        terms.push(store.term(name)?)?;
    }
    Ok(terms)
}

/// The values of the names that have one.
fn all_values(alloc: Global, held: &Values) -> Result<List<Value>, AllocError>
    ensures { IfOk result (λ vs. vs ≡ values_of_names held.now) }
{
    let mut values = List::new(alloc);
    for name in 0..held.len() {
        values.push(held.value(name)?)?;
    }
    Ok(values)
}

/// A rule without its justification.
fn entry_from(alloc: Global, kept: &Kept) -> Result<RuleEntry, AllocError>
    ensures { IfOk result (λ entry. entry ≡ kept.now.entry) }
{
    let entry = &kept.entry;
    Ok(RuleEntry {
        symbol: AcSymbol {
            head: entry.symbol.head,
            sorts: copy_sorts(alloc, entry.symbol.sorts.as_slice())?,
        },
        left: List::from_vec(Vec::from_slice(alloc, entry.left.as_slice())?),
        right: List::from_vec(Vec::from_slice(alloc, entry.right.as_slice())?),
    })
}

/// Adds a rule where there is one.
fn push_rule(
    alloc: Global,
    rules: &mut List<RuleEntry>,
    kept: Option<&Kept>,
) -> Result<(), AllocError>
    ensures { OnOk result (rules.new ≡ rules.old ++ entry_in (entry_of (option_copied kept.entry))) }
{
    if let Some(rule) = kept {
        rules.push(entry_from(alloc, rule)?)?;
    }
    Ok(())
}

/// The rules in the order of their numbers.
fn all_rules(alloc: Global, held: &Rules) -> Result<List<RuleEntry>, AllocError>
    ensures rules { IfOk result (λ es. es ≡ entries (entries_of held.now) held.now.next) }
    ensures rises { IfOk result (λ es. AllByRecursion IsWrittenRising es) }
{
    // both sides of each rule rise
    let _rule = held.rule(0);
    let mut rules = List::new(alloc);
    for number in 0..held.len() {
        push_rule(alloc, &mut rules, held.rule(number))?;
    }
    Ok(rules)
}

impl Holding {
    /// The names that have values, with their terms, the values and the rules.
    pub fn system(&self, alloc: Global, store: &Store) -> Result<System, AllocError>
        requires fits { FitsStore self.now store.now }
        ensures system { IfOk result (λ y. y ≡ system_now self.now) }
        // Multisets are written rising.
        ensures rises { IfOk result (λ y. AllByRecursion IsWrittenRising y.rules) }
    {
        Ok(System {
            names: first_terms(alloc, store, self.values.len())?,
            values: all_values(alloc, &self.values)?,
            rules: all_rules(alloc, self.equations.rules())?,
        })
    }
}
