//! Tests of what tells completed systems: small systems, each with the first clause that refuses it.
#![tactic(auto)]

#[cfg(test)]
mod tests;
