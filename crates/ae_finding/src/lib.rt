//! Bindings under which a trigger's term equals a name of a store, and the test of such bindings.
#![tactic(auto)]

pub mod arithmetic;
pub mod bindings;
pub mod generating;
pub mod names;
pub mod own;
pub mod sites;
pub mod testing;
