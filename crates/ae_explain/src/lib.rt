//! Trails of true literals, and what is learnt from a clause that is false in one.
#![tactic(auto)]

mod conflict;
mod lawful;
mod marks;
mod trail;

pub use conflict::{Learnt, conflict_clause};
pub use lawful::{are_false, is_lawful};
pub use trail::{Assigned, Trail};
