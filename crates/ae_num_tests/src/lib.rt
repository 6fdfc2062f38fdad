//! Tests of numbers and linear forms at their limits.
#![tactic(auto)]

#[cfg(test)]
mod tests;
