//! Tests of what reads states.
#![tactic(auto)]

#[cfg(test)]
mod tests;
