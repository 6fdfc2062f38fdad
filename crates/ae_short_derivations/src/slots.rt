//! Numbers of steps, by what they say: steps with the same sides have the same.
use ae_just::steps::{Side, Step, Times};

/// A number in which another one counts.
fn mixed(number: usize, other: usize) -> usize {
    number
        .wrapping_mul(6_364_136_223_846_793_005)
        .wrapping_add(other)
}

/// The low bits of a number's size, and its sign.
fn low(number: i128) -> usize {
    (number.unsigned_abs() % 4_294_967_296) as usize
}

/// The number of the parts of a sum.
fn parts_slot(parts: &[Times]) -> usize {
    let mut slot = 3;
    for part in parts {
        slot = mixed(mixed(slot, low(part.factor)), part.name);
    }
    slot
}

/// The number of names.
fn names_slot(names: &[usize]) -> usize {
    let mut slot = 5;
    for name in names {
        slot = mixed(slot, *name);
    }
    slot
}

/// The number of a side.
fn side_slot(side: &Side) -> usize {
    match side {
        Side::Name(name) => mixed(7, *name),
        Side::Sum {
            parts,
            constant,
            ..
        } => mixed(parts_slot(parts.as_slice()), low(*constant)),
        Side::Many { names, .. } => names_slot(names.as_slice()),
    }
}

/// The number of a step.
pub(crate) fn slot_of(step: &Step) -> usize {
    mixed(side_slot(&step.left), side_slot(&step.right))
}
