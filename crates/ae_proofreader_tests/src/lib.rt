//! Tests of the reader of proof texts.
#![tactic(auto)]

#[cfg(test)]
mod tests;
