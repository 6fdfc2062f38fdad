//! Tests of unification of sorts.
#![tactic(auto)]

#[cfg(test)]
mod tests;
