//! Tests of rounding.
#![tactic(auto)]

#[cfg(test)]
mod tests;
