//! Lists of terms that are kept.
ghost use Rattle.std.specs.Prelude.{◌≡◌, [], IfOk, OnOk};
ghost use Rattle.ae_journal.specs.Triggers as definition;
ghost use Rattle.ae_trigger.specs.Inner.Kept as spec;

use crate::occurrences::is_among;
use ae_core::copies::copy_term;
use ae_core::lists::List;
use ae_core::terms::Term;
use std::alloc::{AllocError, Global};

/// Puts a term behind the others, if it isn't among them.
#[tactic(auto, unfolding(crate::specs::Inner::Kept::with_new))]
fn keep_new(alloc: Global, kept: &mut List<Term>, term: &Term) -> Result<(), AllocError>
    ensures { OnOk result (kept.new ≡ spec.with_new kept.old term.now) }
{
    if is_among(kept.as_slice(), term) {
        return Ok(());
    }
    let copy = copy_term(alloc, term)?;
    kept.push(copy)?;
    Ok(())
}

/// Each once, in the order of the first places.
pub fn once_each(alloc: Global, terms: &[Term]) -> Result<List<Term>, AllocError>
    ensures { IfOk result (λ ts. ts ≡ definition.once_each [] terms.now) }
{
    let mut kept = List::new(alloc);
    for term in terms {
        keep_new(alloc, &mut kept, term)?;
    }
    Ok(kept)
}

/// Puts a term behind the others, where that is said.
#[tactic(auto, unfolding(crate::specs::Inner::Kept::with_one))]
pub fn keep_where(
    alloc: Global,
    kept: &mut List<Term>,
    passes: bool,
    term: &Term,
) -> Result<(), AllocError>
    ensures { OnOk result (kept.new ≡ spec.with_one passes kept.old term.now) }
{
    if passes {
        let copy = copy_term(alloc, term)?;
        kept.push(copy)?;
    }
    Ok(())
}
