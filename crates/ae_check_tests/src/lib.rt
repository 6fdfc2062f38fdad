//! Tests of verdicts: a proof that is accepted, and what is answered where a line is taken away or changed.
#![tactic(auto)]

#[cfg(test)]
mod tests;
