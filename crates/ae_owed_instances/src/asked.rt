//! What is asked of a search here, without the picks of a task.
use ae_core::problems::Problem;
use std::alloc::Global;

/// The goal at a place among the items of a problem, and matches among terms of generations below a bound.
#[derive(Clone, Copy)]
pub(crate) struct Asked<'a> {
    pub alloc: Global,
    pub problem: &'a Problem,
    pub goal: usize,
    pub generations: u32,
}
