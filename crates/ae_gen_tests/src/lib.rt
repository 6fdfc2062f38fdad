//! Tests of the demo: its text against its first goals written out.
#![tactic(auto)]

#[cfg(test)]
mod tests;
