//! Tests of what reads numbers, words and names.
#![tactic(auto)]

#[cfg(test)]
mod tests;
