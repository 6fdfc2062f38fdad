//! Elaboration: the problem of a file, or its first fault.
#![tactic(auto)]

mod drafts;
mod files;
mod release;

pub use files::elaborate;
pub use release::release_problem;
