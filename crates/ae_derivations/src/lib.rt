//! Derivations one after another.
#![tactic(auto)]

pub mod joining;
mod moving;
