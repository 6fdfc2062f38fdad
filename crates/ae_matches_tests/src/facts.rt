//! Facts: closed formulas, whose terms get names and whose equations are assumed.
ghost use Rattle.std.specs.Prelude.{◌≡◌, ◌∷◌, [], true, IfOk, IsTrue};
ghost use Rattle.std.specs.List.{Contains};
ghost use Rattle.ae_core.specs.declared.formulas.Formula.{Eq};
ghost use Rattle.ae_theory.specs.Names.{AreNamed, terms_in};

use ae_core::copies::{copy_formula, copy_sorts, copy_terms};
use ae_core::formulas::{Formula, Lit};
use ae_core::lists::{List, at};
use ae_core::problems::Signature;
use ae_core::sorts::trigger_ok;
use ae_core::terms::{Head, Sort, Term};
use ae_store::store::Store;
use ae_theory::naming::name_of;
use ae_theory::theory::Theory;
use std::alloc::{AllocError, Global};

/// Gives a closed term a name.
fn enter_term(
    alloc: Global,
    store: &mut Store,
    signature: &Signature,
    term: &Term,
    generation: u32,
) -> Result<(), AllocError>
    requires { signature.now ≡ store.old.signature }
    ensures { store.new.signature ≡ store.old.signature }
{
    if trigger_ok(alloc, signature, term, &[])? {
        store.intern(signature, term, generation)?;
    }
    Ok(())
}

/// Gives closed terms names.
fn enter_terms(
    alloc: Global,
    store: &mut Store,
    signature: &Signature,
    terms: &[Term],
    generation: u32,
) -> Result<(), AllocError>
    requires { signature.now ≡ store.old.signature }
    ensures { store.new.signature ≡ store.old.signature }
{
    for term in terms {
        enter_term(alloc, store, signature, term, generation)?;
    }
    Ok(())
}

/// Gives the application of a predicate a name.
fn enter_atom(
    alloc: Global,
    store: &mut Store,
    signature: &Signature,
    symbol: usize,
    sorts: &[Sort],
    args: &[Term],
    generation: u32,
) -> Result<(), AllocError>
    requires { signature.now ≡ store.old.signature }
    ensures { store.new.signature ≡ store.old.signature }
{
    let sorts = copy_sorts(alloc, sorts)?;
    let args = copy_terms(alloc, args)?;
    let mut terms = List::new(alloc);
    terms.push(Term::Apply {
        head: Head::Symbol(symbol),
        sorts,
        args,
    })?;
    enter_terms(alloc, store, signature, terms.as_slice(), generation)
}

/// Gives the two sides of a relation names.
fn enter_sides(
    alloc: Global,
    store: &mut Store,
    signature: &Signature,
    left: &Term,
    right: &Term,
    generation: u32,
) -> Result<(), AllocError>
    requires { signature.now ≡ store.old.signature }
    ensures { store.new.signature ≡ store.old.signature }
{
    enter_term(alloc, store, signature, left, generation)?;
    enter_term(alloc, store, signature, right, generation)
}

/// Gives the terms and atoms of a formula names, those outside of quantified parts.
pub fn enter_formula(
    alloc: Global,
    store: &mut Store,
    signature: &Signature,
    formula: &Formula,
    generation: u32,
) -> Result<(), AllocError>
    requires { signature.now ≡ store.old.signature }
    ensures { store.new.signature ≡ store.old.signature }
{
    match formula {
        Formula::Eq { left, right } => enter_sides(
            alloc, store, signature, left, right, generation,
        ),
        Formula::Lt { left, right } => enter_sides(
            alloc, store, signature, left, right, generation,
        ),
        Formula::Le { left, right } => enter_sides(
            alloc, store, signature, left, right, generation,
        ),
        Formula::Pred {
            symbol,
            sorts,
            args,
        } => enter_atom(
            alloc,
            store,
            signature,
            *symbol,
            sorts.as_slice(),
            args.as_slice(),
            generation,
        ),
        Formula::Not(part) => enter_formula(alloc, store, signature, part.get(), generation),
        Formula::And(left, right) => {
            enter_formula(alloc, store, signature, left.get(), generation)?;
            enter_formula(alloc, store, signature, right.get(), generation)
        }
        Formula::Or(left, right) => {
            enter_formula(alloc, store, signature, left.get(), generation)?;
            enter_formula(alloc, store, signature, right.get(), generation)
        }
        Formula::Xor(left, right) => {
            enter_formula(alloc, store, signature, left.get(), generation)?;
            enter_formula(alloc, store, signature, right.get(), generation)
        }
        Formula::Iff(left, right) => {
            enter_formula(alloc, store, signature, left.get(), generation)?;
            enter_formula(alloc, store, signature, right.get(), generation)
        }
        Formula::True => Ok(()),
        Formula::False => Ok(()),
        Formula::All(_) => Ok(()),
        Formula::Ex(_) => Ok(()),
    }
}

/// Whether a term has a name.
fn has_name(store: &Store, term: &Term) -> Result<bool, AllocError>
    ensures { IfOk result (λ r. IsTrue r → Contains (terms_in store.now) term.now) }
{
    let name = name_of(store, term)?;
    Ok(name.is_some())
}

/// The literal that a formula is true, in a list of its own.
fn affirmed(alloc: Global, formula: &Formula) -> Result<List<Lit>, AllocError>
    ensures { IfOk result (λ ls. ls ≡ record { positive = true; formula = formula.now } ∷ []) }
{
    let mut lits = List::new(alloc);
    lits.push(Lit {
        positive: true,
        formula: copy_formula(alloc, formula)?,
    })?;
    Ok(lits)
}

/// Assumes that a formula is true.
fn assume_named<T: Theory>(
    alloc: Global,
    store: &Store,
    theory: &mut T,
    formula: &Formula,
) -> Result<(), AllocError>
    requires fits { T.fits theory.old store.now }
    requires named { AreNamed store.now formula.now }
    ensures fits { T.fits theory.new store.now }
{
    let lits = affirmed(alloc, formula)?;
    match at(lits.as_slice(), 0) {
        Some(lit) => theory.assume(alloc, store, lit, 0),
        None => Ok(()),
    }
}

/// Assumes an equation whose sides have names.
fn assume_equation<T: Theory>(
    alloc: Global,
    store: &Store,
    theory: &mut T,
    formula: &Formula,
    left: &Term,
    right: &Term,
) -> Result<(), AllocError>
    requires fits { T.fits theory.old store.now }
    requires equation { formula.now ≡ Eq left.now right.now }
    ensures fits { T.fits theory.new store.now }
{
    if !has_name(store, left)? {
        return Ok(());
    }
    if !has_name(store, right)? {
        return Ok(());
    }
    assume_named(alloc, store, theory, formula)
}

/// Assumes the equations that hold where a formula does, or where it doesn't.
pub fn assume_formula<T: Theory>(
    alloc: Global,
    store: &Store,
    theory: &mut T,
    holds: bool,
    formula: &Formula,
) -> Result<(), AllocError>
    requires fits { T.fits theory.old store.now }
    ensures fits { T.fits theory.new store.now }
{
    match formula {
        Formula::Eq { left, right } if holds => {
            assume_equation(alloc, store, theory, formula, left, right)
        }
        Formula::Not(part) => assume_formula(alloc, store, theory, !holds, part.get()),
        Formula::And(left, right) if holds => {
            assume_formula(alloc, store, theory, holds, left.get())?;
            assume_formula(alloc, store, theory, holds, right.get())
        }
        Formula::Or(left, right) if !holds => {
            assume_formula(alloc, store, theory, holds, left.get())?;
            assume_formula(alloc, store, theory, holds, right.get())
        }
        _ => Ok(()),
    }
}
