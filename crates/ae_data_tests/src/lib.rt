//! Tests of the values of records and of enumerations: the equations of two records, and the clauses of enumerations.
#![tactic(auto)]

#[cfg(test)]
mod tests;
