//! Whether inequalities that are true can't hold together, where of two that differ in strictness alone the strict one is taken.
#![tactic(auto)]

mod strict;

pub use strict::{long_strict_contradiction, strict_contradiction};
