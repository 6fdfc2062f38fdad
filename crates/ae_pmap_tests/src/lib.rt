//! Tests of persistent maps.
#![tactic(auto)]

#[cfg(test)]
mod tests;
