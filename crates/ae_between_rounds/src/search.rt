//! A search for a goal, and what it is asked for.
use ae_ages::entries::Aged;
pub use ae_combine::State;
use ae_core::lists::List;
use ae_core::problems::Problem;
use ae_core::proofs::ClauseLine;
use ae_inst::instances::Instances;
use ae_journal::journal::Journal;
use ae_known::known::Known;
use ae_opening::OpenedBlocks;
use ae_owners::owners::Owner;
use ae_sat::solver::Solver;
use ae_search_options::picks::Pick;
use ae_store::store::Store;
use ae_trigger::patterns::Subst;
use std::alloc::Global;

/// What a search is asked for: the goal at a place among the items of a problem, by two picks, with so many counted lines at most, and matches among terms of
/// generations below a bound.
#[derive(Clone, Copy)]
pub struct Task<'a> {
    pub alloc: Global,
    pub problem: &'a Problem,
    pub goal: usize,
    /// How many lines may be counted.
    pub steps: usize,
    /// Which literal to decide.
    pub decide: &'a Pick,
    /// Which of the instances that are owed to make first.
    pub rank: &'a Pick,
    /// Terms below this generation are matched; at most 20.
    pub generations: u32,
}

/// A match that was instantiated, with the least number that it has had.
#[derive(Drop)]
pub struct Instance {
    /// The number of the owner.
    pub owner: usize,
    pub subst: Subst,
    pub number: u32,
}

/// The instances that were made.
#[derive(Drop)]
pub struct Instantiated {
    /// By owners, up to names that are the same.
    pub taken: Instances,
    /// In the order in which they were made.
    pub made: List<Instance>,
    /// How often the rank was asked.
    pub turn: usize,
}

/// A search between two rounds.
#[derive(Drop)]
pub struct Search {
    pub store: Store,
    pub solver: Solver<State>,
    pub journal: Journal,
    /// The lines of the proof so far.
    pub lines: Vec<ClauseLine>,
    /// The blocks that were opened, with the next constant.
    pub blocks: OpenedBlocks,
    /// Generations of the quantified formulas that were brought.
    pub ages: List<Aged>,
    /// The names of the store by what they apply, so many as were looked at.
    pub known: Known,
    /// How many names, the first ones, are in the index, and have their clauses where their sorts are enumerations.
    pub looked: usize,
    /// What can be instantiated.
    pub owners: List<Owner>,
    pub instances: Instantiated,
}

/// A match that is owed.
#[derive(Drop)]
pub struct Owed {
    /// The number of the owner.
    pub owner: usize,
    pub subst: Subst,
}

/// Matches that are owed at a number.
#[derive(Drop)]
pub struct OwedAt {
    pub number: u32,
    pub owed: List<Owed>,
}
