//! Typing of expressions: from the tree of an expression to its typed tree, or to the first fault of its typing.
#![tactic(auto)]

pub mod blocks;
pub mod classes;
pub mod field_steps;
pub mod in_terms;
pub mod let_steps;
pub mod marks;
pub mod meanings;
pub mod merging;
pub mod symbol_steps;
