//! Short explanations of conflicts: blocks in which no line says that a term is itself by others, and none says what an earlier one says.
#![tactic(auto)]

mod explaining;

pub use explaining::explain;
