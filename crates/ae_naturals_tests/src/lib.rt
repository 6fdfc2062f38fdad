//! Tests of numbers of any size.
#![tactic(auto)]

#[cfg(test)]
mod tests;
