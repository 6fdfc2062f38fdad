//! Tests of linear inequalities.
#![tactic(auto)]

#[cfg(test)]
mod tests;
