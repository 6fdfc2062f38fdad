//! Pairs of numbers of a trail whose order it leaves open.
#![tactic(auto)]

pub mod pairs;
