//! Choices of the caller.
ghost use Rattle.std.specs.Prelude.{ℕ, ◌<◌, ◌≤◌};

/// A choice below a number, which may hang on a turn.
#[derive(Drop)]
pub struct Pick {
    choose: Box<dyn Fn(usize, usize) -> usize>,
    ghost callable: { (n turn : ℕ) → 1 ≤ n → pre choose n turn },
    ghost below: { (n turn answer : ℕ) → 1 ≤ n → post choose n turn answer → answer < n },
}

impl Pick {
    /// Keeps a closure that may be called for every number above 0 and answers less.
    pub fn keep(choose: Box<dyn Fn(usize, usize) -> usize>) -> Pick
        requires callable { (n turn : ℕ) → 1 ≤ n → pre choose n turn }
        requires below { (n turn answer : ℕ) → 1 ≤ n → post choose n turn answer → answer < n }
    {
        Pick { choose }
    }

    /// A number below `n`.
    pub fn ask(&self, n: usize, turn: usize) -> usize
        requires { 1 ≤ n }
        ensures { result < n }
    {
        (self.choose)(n, turn)
    }
}

/// What a search chooses by, in each of three ways: first, last and mixed.
#[derive(Drop)]
pub struct Picks {
    /// Which literal to decide.
    pub decide: [Pick; 3],
    /// Which of the instances that are owed to make first.
    pub rank: [Pick; 3],
}
