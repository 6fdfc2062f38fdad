//! Legal journals of lawful problems can be written: what a text of theirs shows is as texts have to be, whatever numbers they count with.
#![tactic(auto)]

pub mod laws;
