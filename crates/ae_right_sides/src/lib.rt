//! The right sides of rules: over representatives, and reduced.
#![tactic(auto)]

mod rights;

pub use rights::compose_rights;
