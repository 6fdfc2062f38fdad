//! Tests of what reads terms.
#![tactic(auto)]

#[cfg(test)]
mod tests;
