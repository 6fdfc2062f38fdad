//! Names that are taken in: the values that lines make of their terms, and which widths of their operands are licensed.
#![tactic(auto)]

pub mod laws;
