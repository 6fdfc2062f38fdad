//! Names of a store are taken in: each gets the value that its term gives it, and a step that says so.
#![tactic(auto)]

mod computing;
mod covering;
mod entries;
mod given;
mod joining;
mod next;
mod products;
mod putting;
mod refusals;
mod taking;

pub use taking::take_in;
