//! States.
ghost use Rattle.std.specs.Prelude.{◌≡◌, ◌≤◌, ◌^◌, length, true};
ghost use Rattle.std.specs.List.{list_all};
ghost use Rattle.ae_core.specs.declared.problems.Signature.{Signature};
ghost use Rattle.ae_legal_states.specs.Writable.{IsWithinLimits};
ghost use Rattle.ae_writable.specs.Writable.{IsWritableState};
ghost use Rattle.ae_counts.specs.Inner.Counted as spec;

use crate::formulas::literals_count;
use crate::numbers::numbers_count;
use crate::terms::{sorts_count, terms_count};
use crate::values::values_count;
use ae_core::terms::Term;
use ae_journal::systems::{RuleEntry, Saturated, System};

// The numbers of a rule's sorts, and the names of its multisets, have 64 bits.
fn rule_counts(rule: &RuleEntry)
    ensures { spec.rule_counts rule.now ≡ true }
{
    sorts_count(rule.symbol.sorts.as_slice());
    numbers_count(rule.left.as_slice());
    numbers_count(rule.right.as_slice());
}

fn rules_count(rules: &[RuleEntry])
    ensures { list_all spec.rule_counts rules.now ≡ true }
{
    for rule in rules {
        rule_counts(rule);
    }
}

// A list in memory has no more terms than there are numbers of 64 bits.
pub(crate) fn terms_are_few(terms: &[Term])
    ensures { length terms.now ≤ 2 ^ 64 }
{
    let _length = terms.len();
}

fn system_counts(system: &System)
    ensures names { list_all spec.term_counts system.now.names ≡ true }
    ensures few { length system.now.names ≤ 2 ^ 64 }
    ensures values { list_all spec.value_counts system.now.values ≡ true }
    ensures rules { list_all spec.rule_counts system.now.rules ≡ true }
{
    terms_count(system.names.as_slice());
    terms_are_few(system.names.as_slice());
    values_count(system.values.as_slice());
    rules_count(system.rules.as_slice());
}

/// Walks over a state, and answers nothing: each number of something in it is a machine's, and so has 64 bits. A writable state in memory keeps within
/// the limits of its text. It takes no memory, and its time is linear in the state.
pub fn state_counts(state: &Saturated)
    ensures limits { (sig : Signature) → IsWritableState sig state.now → IsWithinLimits sig state.now }
{
    literals_count(state.literals.as_slice());
    system_counts(&state.system);
}
