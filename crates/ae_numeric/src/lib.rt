//! Derived lines and endings with numbers: linear forms of terms over numbered keys, sums of lines, rounding, divisors. Each answer is as
//! the definitions of `ae_core` say it over unbounded fractions, or the first product or sum outside 128 bits is named.
#![tactic(auto)]

pub mod combinations;
pub mod forms;
pub mod keys;
pub mod rounding;
