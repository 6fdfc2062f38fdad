//! `Combine` lines of a journal: which rows stand after one, and when one is legal.
#![tactic(auto)]

pub mod laws;
