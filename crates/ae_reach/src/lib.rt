//! Which goals one run of the solver answers.
#![tactic(auto)]
