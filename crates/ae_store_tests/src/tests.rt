//! Names, sorts and generations of a few terms.
ghost use Rattle.std.specs.Prelude.{◌≡◌};
ghost use Rattle.ae_core.specs.Signatures.{IsLawful};

use ae_core::lists::List;
use ae_core::problems::Signature;
use ae_core::sorts::trigger_ok;
use ae_core::terms::{Head, Op, Term};
use ae_store::store::Store;
use std::alloc::{AllocError, Global};
use std::test::Fail;

fn empty(alloc: Global) -> Signature
    ensures { IsLawful result }
{
    Signature {
        types: List::new(alloc),
        symbols: List::new(alloc),
    }
}

fn five(real: bool) -> Term {
    Term::Num {
        top: 5,
        bottom: 1,
        real,
    }
}

fn negated(alloc: Global, inner: Term) -> Result<Term, AllocError> {
    let mut args = List::new(alloc);
    args.push(inner)?;
    Ok(Term::Apply {
        head: Head::Int(Op::Neg),
        sorts: List::new(alloc),
        args,
    })
}

/// The name of a term, where it may be entered.
fn named(
    alloc: Global,
    store: &mut Store,
    signature: &Signature,
    term: &Term,
    generation: u32,
) -> Result<Option<usize>, AllocError>
    requires { signature.now ≡ store.old.signature }
    ensures { store.new.signature ≡ store.old.signature }
{
    if trigger_ok(alloc, signature, term, &[])? {
        return Ok(Some(store.intern(signature, term, generation)?));
    }
    Ok(None)
}

/// The name of the term of a name.
fn named_anew(
    alloc: Global,
    store: &mut Store,
    signature: &Signature,
    name: usize,
) -> Result<Option<usize>, AllocError>
    requires { signature.now ≡ store.old.signature }
{
    if name < store.len() {
        let term = store.term(name)?;
        return named(alloc, store, signature, &term, 0);
    }
    Ok(None)
}

fn generation_of(store: &Store, name: usize) -> Option<u32> {
    if name < store.len() {
        return Some(store.node(name).generation);
    }
    None
}

fn first_argument(store: &Store, name: usize) -> Option<usize> {
    if name < store.len() {
        return store.node(name).args.as_slice().first().copied();
    }
    None
}

#[test]
fn numerals_of_two_sorts_differ(rt: HostRuntime) -> Result<(), Fail> {
    let alloc = rt.alloc();
    let signature = empty(alloc);
    let mut store = Store::new(alloc, &signature)?;
    let whole = named(alloc, &mut store, &signature, &five(false), 0)?;
    let real = named(alloc, &mut store, &signature, &five(true), 0)?;
    assert_eq!(rt; (whole, real), (Some(0), Some(1)));
    Ok(())
}

#[test]
fn generations_fall(rt: HostRuntime) -> Result<(), Fail> {
    let alloc = rt.alloc();
    let signature = empty(alloc);
    let mut store = Store::new(alloc, &signature)?;
    let term = negated(alloc, five(false))?;
    named(alloc, &mut store, &signature, &term, 3)?;
    named(alloc, &mut store, &signature, &five(false), 2)?;
    named(alloc, &mut store, &signature, &term, 9)?;
    assert_eq!(rt;
        (generation_of(&store, 0), generation_of(&store, 1)),
        (Some(2), Some(3))
    );
    Ok(())
}

#[test]
fn arguments_come_first_and_terms_come_back(rt: HostRuntime) -> Result<(), Fail> {
    let alloc = rt.alloc();
    let signature = empty(alloc);
    let mut store = Store::new(alloc, &signature)?;
    let twice = negated(alloc, negated(alloc, five(false))?)?;
    assert_eq!(rt; named(alloc, &mut store, &signature, &twice, 0)?, Some(2));
    assert_eq!(rt; first_argument(&store, 2), Some(1));
    assert_eq!(rt; first_argument(&store, 1), Some(0));
    assert_eq!(rt; named_anew(alloc, &mut store, &signature, 2)?, Some(2));
    assert_eq!(rt; store.len(), 3);
    Ok(())
}

#[test]
fn an_ill_sorted_term_may_not_be_entered(rt: HostRuntime) -> Result<(), Fail> {
    let alloc = rt.alloc();
    let signature = empty(alloc);
    let mut store = Store::new(alloc, &signature)?;
    let mixed = negated(alloc, five(true))?;
    let name = named(alloc, &mut store, &signature, &mixed, 0)?;
    assert_eq!(rt; name, None);
    assert_eq!(rt; store.len(), 0);
    Ok(())
}
