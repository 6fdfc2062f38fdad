//! Tests of the lines by which texts are refused: the table of refused texts.
#![tactic(auto)]

#[cfg(test)]
mod tests;
