//! Formulas that are dropped part by part.

use ae_core::formulas::Formula;
use ae_core::lists::{Boxed, List};
use ae_lifting::cases::Cases;
use std::alloc::Global;

// Puts a part behind those that are still to be dropped. Where there is no memory for that, it is dropped as it is.
fn set_aside(parts: &mut List<Boxed<Formula>>, part: Boxed<Formula>) {
    let _kept = parts.push(part);
}

// Drops a formula without its parts, which are set aside.
fn take_apart(parts: &mut List<Boxed<Formula>>, formula: Formula) {
    match formula {
        Formula::Not(part) => set_aside(parts, part),
        Formula::And(left, right) => {
            set_aside(parts, left);
            set_aside(parts, right);
        }
        Formula::Or(left, right) => {
            set_aside(parts, left);
            set_aside(parts, right);
        }
        Formula::Xor(left, right) => {
            set_aside(parts, left);
            set_aside(parts, right);
        }
        Formula::Iff(left, right) => {
            set_aside(parts, left);
            set_aside(parts, right);
        }
        Formula::All(block) => set_aside(parts, block.body),
        Formula::Ex(block) => set_aside(parts, block.body),
        _ => {}
    }
}

/// Drops a formula, part by part, so that a deep one takes little of the stack, as long as there is memory for a list of its
/// parts.
pub fn release_formula(alloc: Global, formula: Formula) {
    let mut parts = List::new(alloc);
    take_apart(&mut parts, formula);
    for _part in 0..u64::MAX {
        match parts.pop() {
            Some(part) => take_apart(&mut parts, part.into_inner()),
            None => return,
        }
    }
}

/// Drops terms that hang on conditions, and each condition part by part.
pub fn release_cases(alloc: Global, cases: Cases) {
    match cases {
        Cases::Leaf(_) => {}
        Cases::Branch {
            condition,
            positive,
            negative,
        } => {
            let left = positive.into_inner();
            let right = negative.into_inner();
            release_formula(alloc, condition);
            release_cases(alloc, left);
            release_cases(alloc, right);
        }
    }
}
