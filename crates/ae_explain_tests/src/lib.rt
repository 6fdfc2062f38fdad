//! Tests of what is learnt: small trails, whose clauses were found by hand.
#![tactic(auto)]

#[cfg(test)]
mod tests;
