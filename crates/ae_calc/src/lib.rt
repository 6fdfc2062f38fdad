//! The exact checker of proof lines: each answer is decided as the definitions of `ae_rules` say it, in 128 bits, or the first product or
//! sum outside the limits is named.
#![tactic(auto)]

pub mod clause_lines;
pub mod derivation;
pub mod endings;
pub mod enumerations;
pub mod equations;
pub mod flattening;
pub mod fresh;
pub mod instances;
pub mod lines;
pub mod mentions;
pub mod propagation;
