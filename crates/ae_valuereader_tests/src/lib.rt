//! Tests of what reads values.
#![tactic(auto)]

#[cfg(test)]
mod tests;
