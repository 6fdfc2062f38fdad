//! Marks of what is held.
ghost use Rattle.std.specs.Prelude.{◌≡◌, ◌+◌, ℕ, List};
ghost use Rattle.ae_journal.specs.declared.lines.Line.{Line};
ghost use Rattle.ae_store.specs.Stores.{Stored};
ghost use Rattle.ae_state.specs.declared.holding.Holding.{Holding as HoldingView};
ghost use Rattle.ae_state.specs.declared.holding.Mark.{Mark as MarkView};
ghost use Rattle.ae_state.specs.Names.{assumed_in, system_now, terms_now};
ghost use Rattle.ae_state.specs.Right.{IsRight};
ghost use Rattle.ae_state.specs.Fitting.{FitsStore};
ghost use Rattle.ae_state.specs.Marks.{FitsMark};
ghost use Rattle.ae_state.specs.Stepping.{IsInStep};
ghost use Rattle.ae_state.specs.Complete.{IsComplete, IsOwnConflict};
ghost use Rattle.ae_state.specs.Inner.Back.{IsBack};

use crate::holding::{Holding, Mark};
use ae_steps::Steps;
use std::sync::ledger::Ledger;

impl Holding {
    /// A mark of what is held now. It takes no memory, and one step for each of eleven maps.
    pub fn mark<L: Ledger>(&self, steps: &mut Steps<L>) -> Mark
        requires right { IsRight self.now }
        ensures mark { FitsMark self.now result self.now }
        ensures steps { steps.new ≡ steps.old + 11 }
    {
        Mark {
            values: self.values.share(steps),
            equations: self.equations.share(steps),
            assumed: self.assumed.share(steps),
            said: self.said.share(steps),
            next: self.next,
        }
    }

    /// Brings back each map of a mark.
    fn go_back<L: Ledger>(&mut self, mark: &Mark, steps: &mut Steps<L>)
        requires mark { (then : HoldingView) × FitsMark self.old mark.now then }
        ensures back { (then : HoldingView) → FitsMark self.old mark.now then → IsBack self.old self.new then }
        ensures marks { (m : MarkView) (then : HoldingView) → FitsMark self.old m then → FitsMark self.new m then }
        ensures steps { steps.new ≡ steps.old + 11 }
    {
        self.values.back(&mark.values, steps);
        self.equations.back(&mark.equations, steps);
        self.assumed.back(mark.assumed, steps);
        self.said.back(mark.said, steps);
        self.next = mark.next;
    }

    /// Goes to what was held at a mark, an earlier or a later one; names, steps and conflicts that came since stay. It takes no memory, and one step
    /// for each of eleven maps.
    pub fn restore<L: Ledger>(&mut self, mark: &Mark, steps: &mut Steps<L>)
        requires right { IsRight self.old }
        requires mark { (then : HoldingView) × FitsMark self.old mark.now then }
        ensures right { IsRight self.new }
        ensures assumed { (then : HoldingView) → FitsMark self.old mark.now then → assumed_in self.new ≡ assumed_in then }
        ensures complete { (then : HoldingView) → FitsMark self.old mark.now then → IsComplete then → IsComplete self.new }
        ensures names { (then : HoldingView) → FitsMark self.old mark.now then → terms_now self.new ≡ terms_now then }
        ensures system { (then : HoldingView) → FitsMark self.old mark.now then → system_now self.new ≡ system_now then }
        ensures conflicts { (then : HoldingView) → FitsMark self.old mark.now then → (k : ℕ) → IsOwnConflict then k → IsOwnConflict self.new k }
        ensures step { (then : HoldingView) → FitsMark self.old mark.now then → (js : List Line) → IsInStep then js → IsInStep self.new js }
        ensures fits { (s : Stored) → FitsStore self.old s → FitsStore self.new s }
        ensures marks { (m : MarkView) (then : HoldingView) → FitsMark self.old m then → FitsMark self.new m then }
        ensures steps { steps.new ≡ steps.old + 11 }
    {
        self.go_back(mark, steps)
    }
}
