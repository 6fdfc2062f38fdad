//! Tests of proof texts.
#![tactic(auto)]

#[cfg(test)]
mod tests;
