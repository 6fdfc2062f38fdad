//! A count of steps for contracts that bound work: it takes no bytes and costs nothing when it runs.
#![tactic(auto)]

ghost use Rattle.std.specs.Prelude.{◌≡◌, ℕ, ◌+◌, ◌<◌};

use std::marker::Model;
use std::sync::ledger::{Blank, Book, Ledger, Share};

/// How many steps were counted. Contracts see it as a number, and only `tick` changes it.
///
/// A function whose steps are bounded takes a `&mut Steps<L>` for any ledger `L`, and its contract
/// compares `steps.new` with `steps.old`. A caller that counts nothing itself takes a `Blank` in a
/// function of its own over `L: Ledger`, makes a counter of it by `new`, and is called as
/// `work::<Brand>(.., Blank::new(1))`; the proof of that call picks the blank's own name and parts.
#[derive(Drop)]
pub struct Steps<L: Ledger> {
    book: Book<L>,
    share: Share<L>,
}

impl<L: Ledger> Model for Steps<L> {
    ghost Value = { ℕ };

    ghost view = { λ s. s.book.total };

    ghost invariant = { λ s. 0 < s.share.parts };
}

impl<L: Ledger> Steps<L> {
    /// A counter at 0, made of a ledger that nothing stands in yet.
    pub fn new(blank: Blank) -> Self
        requires name { blank.name ≡ L.name }
        requires parts { blank.parts ≡ L.parts }
        requires some { 0 < blank.parts }
        ensures { result ≡ 0 }
    {
        let (book, share) = blank.open();
        Steps { book, share }
    }

    /// Counts one step.
    pub fn tick(&mut self)
        ensures { self.new ≡ self.old + 1 }
    {
        self.book.add(&mut self.share, 1);
    }
}

#[cfg(test)]
mod tests {
    use super::Steps;
    use std::marker::Brand;
    use std::sync::ledger::{Blank, Ledger};

    fn two_steps<L: Ledger>(steps: &mut Steps<L>)
        ensures { steps.new ≡ steps.old + 2 }
    {
        steps.tick();
        steps.tick();
    }

    fn counted<L: Ledger>(blank: Blank)
        requires name { blank.name ≡ L.name }
        requires parts { blank.parts ≡ L.parts }
        requires some { 0 < blank.parts }
    {
        let mut steps = Steps::<L>::new(blank);
        two_steps(&mut steps);
    }

    #[test]
    fn a_caller_that_counts_nothing_makes_a_counter(_rt: HostRuntime) {
        counted::<Brand>(Blank::new(1));
    }
}
