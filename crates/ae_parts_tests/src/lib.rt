//! Tests of what reads the parts of goals: outputs as they are printed, and such with a fault.
#![tactic(auto)]

#[cfg(test)]
mod tests;
