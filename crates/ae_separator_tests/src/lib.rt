//! Tests of the line that parts an input.
#![tactic(auto)]

#[cfg(test)]
mod tests;
