//! Tests of whole runs, over a source and a sink in memory.
#![tactic(auto)]

#[cfg(test)]
mod tests;
