//! Generations of terms and of quantified formulas, by what is brought.
#![tactic(auto)]

pub mod bringing;
pub mod entries;
mod interning;
pub mod laws;
