//! Tests of the values of the core: orders, copies, putting.
#![tactic(auto)]

#[cfg(test)]
mod tests;
