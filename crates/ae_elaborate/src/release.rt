//! Problems that are dropped formula by formula.

use ae_core::problems::{Item, Problem};
use ae_translation::release_formula;
use std::alloc::Global;

// Drops an axiom or a goal.
fn release_item(alloc: Global, item: Item) {
    match item {
        Item::Axiom {
            name: _,
            vars: _,
            body,
        } => release_formula(alloc, body),
        Item::Goal {
            name: _,
            rigid: _,
            body,
        } => release_formula(alloc, body),
    }
}

/// Drops a problem. A formula may have 4,000 levels, more than the stack has room for where it is simply dropped: its parts are
/// taken off one after another, as long as there is memory for a list of them.
pub fn release_problem(alloc: Global, problem: Problem) {
    let Problem {
        signature: _,
        items,
    } = problem;
    let mut left = items;
    for _item in 0..left.len() {
        match left.pop() {
            Some(item) => release_item(alloc, item),
            None => return,
        }
    }
}
