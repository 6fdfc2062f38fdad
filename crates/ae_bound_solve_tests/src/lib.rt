//! A test of ae_bound_solve: the call on no rows.
#![tactic(auto)]

#[cfg(test)]
mod tests;
