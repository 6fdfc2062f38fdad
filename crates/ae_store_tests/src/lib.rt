//! Tests of shared terms.
#![tactic(auto)]

#[cfg(test)]
mod tests;
