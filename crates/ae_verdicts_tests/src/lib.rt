//! Tests of verdicts on proof texts, and of the lines that give them.
#![tactic(auto)]

#[cfg(test)]
mod tests;
