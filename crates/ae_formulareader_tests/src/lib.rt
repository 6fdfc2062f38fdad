//! Tests of what reads formulas.
#![tactic(auto)]

#[cfg(test)]
mod tests;
