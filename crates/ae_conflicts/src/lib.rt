//! Conflicts: why assumed literals can't hold together, by the steps that rest on them; and the blocks that say so.
#![tactic(auto)]

mod assumed;
mod conflicts;
mod explaining;
mod gathering;
pub mod laws;
mod reasons;

pub use assumed::Assumed;
pub use conflicts::Conflict;
pub use explaining::explained;
pub use reasons::derived;
