//! What no rows come to.
ghost use Rattle.std.specs.Prelude.{◌≡◌, []};
ghost use Rattle.ae_core.specs.Signatures.{IsLawful};

use ae_bound_blocks::given::Given;
use ae_bound_solve::answer::Answer;
use ae_bound_solve::solving::solve;
use ae_bounds::bounds::Bounds;
use ae_core::lists::List;
use ae_core::problems::Signature;
use ae_journal::journal::Journal;
use ae_store::store::Store;
use std::alloc::Global;
use std::test::Fail;

fn empty(alloc: Global) -> Signature
    ensures { IsLawful result }
{
    Signature {
        types: List::new(alloc),
        symbols: List::new(alloc),
    }
}

/// How many names the point of no rows has; `None` where they have none.
fn names(
    alloc: Global,
    store: &Store,
    bounds: &mut Bounds,
    journal: &mut Journal,
    given: &[Given],
) -> Option<usize>
    requires { bounds.old ≡ [] }
{
    match solve(alloc, store, bounds, journal, given) {
        Ok(Answer::Point(point)) => Some(point.len()),
        _ => None,
    }
}

#[test]
fn no_rows_have_a_point(rt: HostRuntime) -> Result<(), Fail> {
    let alloc = rt.alloc();
    let signature = empty(alloc);
    let store = Store::new(alloc, &signature)?;
    let mut journal = Journal::new(alloc, 0)?;
    let mut bounds = Bounds::new(alloc);
    let given = Vec::new(alloc);
    assert!(rt; names(alloc, &store, &mut bounds, &mut journal, &given) == Some(0));
    assert!(rt; journal.lines().is_empty());
    assert!(rt; bounds.rows().is_empty());
    Ok(())
}
