//! Tests of rows of linear equations.
#![tactic(auto)]

#[cfg(test)]
mod tests;
