//! Assuming literals.
ghost use Rattle.std.specs.Prelude.{◌≡◌, ◌≢◌, ◌+◌, ◌++◌, ◌∷◌, [], ℕ, List, Some, IfOk, OnOk, OnErr};
ghost use Rattle.ae_pmap.specs.Forest.{present, Lasts as MapLasts};
ghost use Rattle.ae_pmap.specs.Pairs.{found, put_in};
ghost use Rattle.ae_journal.specs.declared.lines.Line.{Line};
ghost use Rattle.ae_store.specs.Growing.{IsFront};
ghost use Rattle.ae_theory.specs.Names.{AreNamed};
ghost use Rattle.ae_state.specs.declared.holding.Holding.{Holding as HoldingView};
ghost use Rattle.ae_state.specs.declared.holding.Mark.{Mark as MarkView};
ghost use Rattle.ae_state.specs.Names.{assumed_in};
ghost use Rattle.ae_state.specs.Fitting.{FitsStore};
ghost use Rattle.ae_state.specs.Marks.{FitsMark};
ghost use Rattle.ae_state.specs.Stepping.{IsInStep};
ghost use Rattle.ae_state.specs.Complete.{IsOwnConflict};

use crate::holding::Holding;
use ae_conflicts::Assumed;
use ae_core::copies::copy_lit;
use ae_core::formulas::Lit;
use ae_literals::{Said, said_of};
use ae_store::store::Store;
use std::alloc::{AllocError, Global};

/// A literal that is assumed, with its tag.
fn tagged(alloc: Global, lit: &Lit, tag: usize) -> Result<Assumed, AllocError>
    ensures { IfOk result (λ assumed. assumed ≡ record { lit = lit.now; tag = tag }) }
{
    Ok(Assumed {
        lit: copy_lit(alloc, lit)?,
        tag,
    })
}

impl Holding {
    /// Puts a literal and what it says behind the others. A refusal may leave what it says at the next place, where nothing is assumed.
    fn put(&mut self, alloc: Global, lit: &Lit, tag: usize, said: Said) -> Result<(), AllocError>
        ensures assumed { OnOk result (present self.new.assumed ≡ put_in self.old.next (record { lit = lit.now; tag = tag }) (present self.old.assumed)) }
        ensures next { OnOk result (self.new.next ≡ self.old.next + 1) }
        ensures said { OnOk result (found (present self.new.said) self.old.next ≡ Some said) }
        ensures before { (place : ℕ) → place ≢ self.old.next → found (present self.new.said) place ≡ found (present self.old.said) place }
        ensures err { OnErr result (present self.new.assumed ≡ present self.old.assumed) }
        ensures err_next { OnErr result (self.new.next ≡ self.old.next) }
        ensures others { self.new ≡ record self.old { assumed = self.new.assumed; said = self.new.said; next = self.new.next } }
        ensures assumed_lasts { MapLasts self.old.assumed self.new.assumed }
        ensures said_lasts { MapLasts self.old.said self.new.said }
    {
        let place = self.next;
        let Some(next) = place.checked_add(1) else {
            return Err(AllocError);
        };
        self.said.insert(place, said)?;
        self.assumed.insert(place, tagged(alloc, lit, tag)?)?;
        self.next = next;
        Ok(())
    }

    /// Assumes a literal, whose terms have names in the store. What was held stays where memory is refused.
    pub fn assume(
        &mut self,
        alloc: Global,
        store: &Store,
        lit: &Lit,
        tag: usize,
    ) -> Result<(), AllocError>
        requires fits { FitsStore self.old store.now }
        requires named { AreNamed store.now lit.now.formula }
        ensures ok { OnOk result (assumed_in self.new ≡ assumed_in self.old ++ record { lit = lit.now; tag = tag } ∷ []) }
        ensures err { OnErr result (assumed_in self.new ≡ assumed_in self.old) }
        ensures fits { FitsStore self.new store.now }
        ensures marks { (m : MarkView) (then : HoldingView) → FitsMark self.old m then → FitsMark self.new m then }
        ensures conflicts { (k : ℕ) → IsOwnConflict self.old k → IsOwnConflict self.new k }
        ensures step { (js : List Line) → IsInStep self.old js → IsInStep self.new js }
        ensures front { IsFront self.old.shapes self.new.shapes }
        ensures others { self.new ≡ record self.old { shapes = self.new.shapes; assumed = self.new.assumed; said = self.new.said; next = self.new.next } }
    {
        self.learn(alloc, store)?;
        let said = said_of(alloc, &self.signature, store, lit)?;
        // what holds of every store
        let _store = store.len();
        self.put(alloc, lit, tag, said)
    }
}
