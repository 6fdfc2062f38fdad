//! A search for any goal that came to a limit answers with its story.
#![tactic(auto)]

pub mod laws;
