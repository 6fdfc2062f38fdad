//! The checker of proofs: it says whether a proof derives a goal, or which line is the first that isn't allowed. It takes nothing from any search.
#![tactic(auto)]

mod codes;
mod constants;
mod gathering;
mod known;
mod propagation;
pub mod verdict;
