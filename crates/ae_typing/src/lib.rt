//! Typing of expressions: records and triggers once their parts are typed.
#![tactic(auto)]

pub mod patterns;
pub mod record_steps;
