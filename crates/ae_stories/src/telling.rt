//! The story.
ghost use Rattle.std.specs.Prelude.{◌≡◌, IfOk};
ghost use Rattle.ae_stories.specs.Told.{told};
ghost use Rattle.ae_theory.specs.Names.{terms_in};

use ae_core::lists::List;
use ae_core::terms::Term;
use ae_journal::journal::Journal;
use ae_journal::lines::Story;
use ae_store::store::Store;
use std::alloc::{AllocError, Global};

/// The terms of all names, in the order of the names.
fn names_of(alloc: Global, store: &Store) -> Result<List<Term>, AllocError>
    ensures { IfOk result (λ ts. ts ≡ terms_in store.now) }
{
    let mut names = List::new(alloc);
    for name in 0..store.len() {
        names.push(store.term(name)?)?;
    }
    Ok(names)
}

/// The names of a store with the lines of a journal; `Err` where there is no memory for the terms.
pub fn story(alloc: Global, store: &Store, journal: Journal) -> Result<Story, AllocError>
    ensures { IfOk result (λ story. story ≡ told store.now journal.lines) }
{
    Ok(Story {
        names: names_of(alloc, store)?,
        lines: journal.into_lines(),
    })
}
