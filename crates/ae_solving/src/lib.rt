//! Equations of two names: one of them, or one that it depends on, gets another value.
#![tactic(auto)]

mod equations;
mod leaves;
mod records;

pub use equations::name_equation;
