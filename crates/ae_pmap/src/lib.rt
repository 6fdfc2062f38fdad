//! A finite map from numbers whose every earlier version can be had back at once.
//!
//! The map is a height-balanced search tree. Its nodes and values stand in two growing vectors and are
//! never overwritten, and a node names its children and its value by their places. So a version of the
//! map is no more than the place of a root.
#![tactic(auto)]

mod map;
mod nodes;
mod walk;

pub use map::{Pmap, Version};
pub use walk::Walk;
