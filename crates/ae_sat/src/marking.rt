//! Marks of a theory, without a count of steps.
ghost use Rattle.std.specs.Prelude.{◌≡◌, ◌<◌, ◌≤◌, ℕ, List};
ghost use Rattle.ae_journal.specs.declared.lines.Line.{Line};
ghost use Rattle.ae_store.specs.Stores.{Stored};

use ae_steps::Steps;
use ae_theory::theory::Theory;
use std::marker::Brand;
use std::sync::ledger::{Blank, Ledger};

fn counted_mark<T: Theory, L: Ledger>(theory: &T, blank: Blank) -> T::Mark
    requires name { blank.name ≡ L.name }
    requires parts { blank.parts ≡ L.parts }
    requires some { 0 < blank.parts }
    ensures { T.fits_mark theory.now result theory.now }
{
    let mut steps = Steps::<L>::new(blank);
    theory.mark(&mut steps)
}

/// A mark of the present state.
pub fn take_mark<T: Theory>(theory: &T) -> T::Mark
    ensures { T.fits_mark theory.now result theory.now }
{
    counted_mark::<T, Brand>(theory, Blank::new(1))
}

fn counted_restore<T: Theory, L: Ledger>(theory: &mut T, mark: &T::Mark, blank: Blank)
    requires name { blank.name ≡ L.name }
    requires parts { blank.parts ≡ L.parts }
    requires some { 0 < blank.parts }
    requires mark { (then : _) × T.fits_mark theory.old mark.now then }
    ensures assumed { (then : _) → T.fits_mark theory.old mark.now then → T.assumed theory.new ≡ T.assumed then }
    ensures step { (then : _) → T.fits_mark theory.old mark.now then → (js : List Line) → T.in_step then js → T.in_step theory.new js }
    ensures fits { (s : Stored) → T.fits theory.old s → T.fits theory.new s }
    ensures marks { (m : _) (then : _) → T.fits_mark theory.old m then → T.fits_mark theory.new m then }
{
    let mut steps = Steps::<L>::new(blank);
    theory.restore(mark, &mut steps);
}

/// Goes to the state of a mark.
pub fn go_to_mark<T: Theory>(theory: &mut T, mark: &T::Mark)
    requires mark { (then : _) × T.fits_mark theory.old mark.now then }
    ensures assumed { (then : _) → T.fits_mark theory.old mark.now then → T.assumed theory.new ≡ T.assumed then }
    ensures step { (then : _) → T.fits_mark theory.old mark.now then → (js : List Line) → T.in_step then js → T.in_step theory.new js }
    ensures fits { (s : Stored) → T.fits theory.old s → T.fits theory.new s }
    ensures marks { (m : _) (then : _) → T.fits_mark theory.old m then → T.fits_mark theory.new m then }
{
    counted_restore::<T, Brand>(theory, mark, Blank::new(1));
}
