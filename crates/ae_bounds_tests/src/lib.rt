//! Tests of ae_bounds: small systems of rows, and what they come to.
#![tactic(auto)]

#[cfg(test)]
mod tests;
