//! Tests of the search over a theory: propositional problems, pigeonholes, and a journal that is full.
#![tactic(auto)]

#[cfg(test)]
mod tests;
