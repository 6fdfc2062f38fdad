//! Tests of what reads journals and widths.
#![tactic(auto)]

#[cfg(test)]
mod tests;
