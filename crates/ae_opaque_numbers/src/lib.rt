//! Numbers that are their own values are opaque terms: a law of legal journals.
#![tactic(auto)]

pub mod laws;
