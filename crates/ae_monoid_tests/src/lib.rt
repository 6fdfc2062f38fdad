//! Tests of rules over multisets.
#![tactic(auto)]

#[cfg(test)]
mod tests;
