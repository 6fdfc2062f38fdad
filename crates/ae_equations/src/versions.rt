//! Versions of what is held.
ghost use Rattle.std.specs.Prelude.{◌≡◌, ◌+◌};
ghost use Rattle.ae_equations.specs.Held.{Contents};
ghost use Rattle.ae_equations.specs.Versions.{StandsFor, IsAs, Lasts};

use crate::equations::{Equations, Shared};
use ae_steps::Steps;
use std::sync::ledger::Ledger;

impl Equations {
    /// A version of what is held, for `back`. It takes no memory, and one step for each of the five maps.
    pub fn share<L: Ledger>(&self, steps: &mut Steps<L>) -> Shared
        ensures version { StandsFor self.now result self.now }
        ensures steps { steps.new ≡ steps.old + 5 }
    {
        Shared {
            rules: self.rules.share(steps),
            heads: self.pairs.heads.share(steps),
            places: self.queue.places.share(steps),
            next: self.queue.next,
        }
    }

    /// Goes to the rules, the pairs and the equations that were shared. It takes no memory, and one step for each of the
    /// five maps.
    pub fn back<L: Ledger>(&mut self, shared: &Shared, steps: &mut Steps<L>)
        requires stands { (then : Contents) × StandsFor self.old shared.now then }
        ensures held { (then : Contents) → StandsFor self.old shared.now then → IsAs self.new then }
        ensures lasts { Lasts self.old self.new }
        ensures steps { steps.new ≡ steps.old + 5 }
    {
        self.rules.back(&shared.rules, steps);
        self.pairs.heads.back(shared.heads, steps);
        self.queue.places.back(shared.places, steps);
        self.queue.next = shared.next;
    }
}
