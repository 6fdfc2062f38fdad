//! Tests of unit propagation: both ways on clause sets that a generator makes.
#![tactic(auto)]

#[cfg(test)]
mod tests;
