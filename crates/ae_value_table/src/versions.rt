//! Versions of the values.
ghost use Rattle.std.specs.Prelude.{◌≡◌, ◌+◌};
ghost use Rattle.ae_value_table.specs.Table.{Contents, values};
ghost use Rattle.ae_value_table.specs.Versions.{StandsFor, IsAs, Lasts};

use crate::table::{Shared, Values};
use ae_steps::Steps;
use std::sync::ledger::Ledger;

impl Values {
    /// A version of the values, for `back`. It takes no memory, and one step for each of the four maps.
    pub fn share<L: Ledger>(&self, steps: &mut Steps<L>) -> Shared
        ensures version { StandsFor self.now result self.now }
        ensures steps { steps.new ≡ steps.old + 4 }
    {
        Shared {
            rows: self.rows.share(steps),
            leaves: self.leaves.share(steps),
            justs: self.justs.share(steps),
            taken: self.taken,
        }
    }

    /// Goes to the values that were shared; what is known of names for good stays. It takes no memory, and one step for
    /// each of the four maps.
    pub fn back<L: Ledger>(&mut self, shared: &Shared, steps: &mut Steps<L>)
        requires { (then : Contents) × StandsFor self.old shared.now then }
        ensures held { (then : Contents) → StandsFor self.old shared.now then → IsAs self.new then }
        ensures values { (then : Contents) → StandsFor self.old shared.now then → values self.new ≡ values then }
        ensures entries { self.new.entries ≡ self.old.entries }
        ensures lasts { Lasts self.old self.new }
        ensures steps { steps.new ≡ steps.old + 4 }
    {
        self.rows.back(&shared.rows, steps);
        self.leaves.back(shared.leaves, steps);
        self.justs.back(shared.justs, steps);
        self.taken = shared.taken;
    }
}
