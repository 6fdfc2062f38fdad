//! Changes of values: what is true of all values stays true where a value is put for a name in each of them.
#![tactic(auto)]

pub mod laws;
