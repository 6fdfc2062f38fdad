//! Tests of what is computed: small systems of numbers, and whether the third clause accepts them.
#![tactic(auto)]

#[cfg(test)]
mod tests;
