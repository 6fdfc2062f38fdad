//! Equations that wait: each is reduced, and given up, solved, or made a rule.
#![tactic(auto)]

mod naming;
mod orienting;
mod reducing;
mod turning;
mod waiting;

pub use ae_solving::name_equation;
pub use waiting::{first_waiting, take_up_first};
