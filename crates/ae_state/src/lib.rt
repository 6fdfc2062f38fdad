//! What the rewriting state holds of a store's names and of assumed literals, and everything that is no turn of saturation: assuming, comparing
//! names, going back to what was, and explaining.
#![tactic(auto)]

mod assuming;
mod comparing;
mod explaining;
mod holding;
pub mod laws;
mod marking;
mod names;
mod showing;

pub use holding::{Holding, Mark};
