//! The steps of a state: each change of a value, of a side of a rule and of a pending equation has an allowed step, whose factors are denominators and
//! factors of values.
#![tactic(auto)]

pub mod laws;
