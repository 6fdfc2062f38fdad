//! Which clauses may come next in a search, where the terms of them have just been named.
#![tactic(auto)]

pub mod laws;
