//! Steps of saturation: what each of them keeps, the representatives that they go by, and the rules that go.
#![tactic(auto)]

mod dropping;
mod found;
pub mod laws;

pub use dropping::{collapse, release};
pub use found::Found;
