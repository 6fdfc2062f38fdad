//! Items: the axioms and goals that typed declarations give, with their type variables numbered.
#![tactic(auto)]

mod items;

pub use items::item;
