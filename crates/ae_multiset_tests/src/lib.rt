//! Tests of multisets: an example of rules, joined.
#![tactic(auto)]

#[cfg(test)]
mod tests;
