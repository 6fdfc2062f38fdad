//! Typing of expressions: from the tree of an expression to its typed tree, or to the first fault of its typing.
#![tactic(auto)]

pub mod expressions;
