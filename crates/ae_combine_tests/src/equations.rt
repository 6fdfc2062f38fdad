//! Equations of constants, whose terms get names, and which are assumed.
ghost use Rattle.std.specs.Prelude.{◌≡◌, ◌∷◌, [], true, List, IfOk, IsTrue};
ghost use Rattle.std.specs.List.{Contains};
ghost use Rattle.ae_core.specs.declared.formulas.Formula.{Eq};
ghost use Rattle.ae_combine.specs.declared.state.Mark.{Mark as MarkView};
ghost use Rattle.ae_combine.specs.Marks.{IsMarkOf};
ghost use Rattle.ae_journal.specs.declared.lines.Line.{Line};
ghost use Rattle.ae_state.specs.declared.holding.Holding.{Holding};
ghost use Rattle.ae_state.specs.Fitting.{FitsStore};
ghost use Rattle.ae_state.specs.Stepping.{IsInStep};
ghost use Rattle.ae_theory.specs.Names.{AreNamed, terms_in};

use ae_combine::State;
use ae_core::copies::copy_term;
use ae_core::formulas::{Formula, Lit};
use ae_core::lists::{Boxed, List, at};
use ae_core::problems::Signature;
use ae_core::sorts::trigger_ok;
use ae_core::terms::{Head, Op, Sort, Term};
use ae_store::store::Store;
use ae_theory::naming::name_of;
use ae_theory::theory::Theory;
use std::alloc::{AllocError, Global};

/// How many equations there are.
pub const EQUATIONS: usize = 1_000;

const CONSTANTS: usize = 1_001;

/// 2^100.
const LARGE: i128 = 1_267_650_600_228_229_401_496_703_205_376;

/// Which equations are meant.
#[derive(Clone, Copy, Debug)]
pub enum Kind {
    /// Two constants are equal.
    Plain,
    /// A constant is 2^100 times the next one.
    Large,
}

fn constant(alloc: Global, number: usize) -> Result<Term, AllocError> {
    let sort = Boxed::new(alloc, Sort::Real)?;
    Ok(Term::Fresh { number, sort })
}

/// 2^100 times a constant.
fn large(alloc: Global, number: usize) -> Result<Term, AllocError> {
    let mut args = List::new(alloc);
    args.push(Term::Num {
        top: LARGE,
        bottom: 1,
        real: true,
    })?;
    args.push(constant(alloc, number)?)?;
    Ok(Term::Apply {
        head: Head::Real(Op::Mul),
        sorts: List::new(alloc),
        args,
    })
}

/// The left side of the equation of a number.
fn left_of(alloc: Global, kind: Kind, number: usize) -> Result<Term, AllocError> {
    let small = number % EQUATIONS;
    match kind {
        Kind::Plain => constant(alloc, small * 5 % CONSTANTS),
        Kind::Large => constant(alloc, small),
    }
}

/// Its right side.
fn right_of(alloc: Global, kind: Kind, number: usize) -> Result<Term, AllocError> {
    let small = number % EQUATIONS;
    match kind {
        Kind::Plain => constant(alloc, small / 3),
        Kind::Large => large(alloc, small + 1),
    }
}

/// Gives a closed term a name.
fn enter_term(
    alloc: Global,
    store: &mut Store,
    signature: &Signature,
    term: &Term,
) -> Result<(), AllocError>
    requires { signature.now ≡ store.old.signature }
    ensures { store.new.signature ≡ store.old.signature }
{
    if trigger_ok(alloc, signature, term, &[])? {
        store.intern(signature, term, 0)?;
    }
    Ok(())
}

/// Gives the sides of an equation names.
fn enter_equation(
    alloc: Global,
    store: &mut Store,
    signature: &Signature,
    kind: Kind,
    number: usize,
) -> Result<(), AllocError>
    requires { signature.now ≡ store.old.signature }
    ensures { store.new.signature ≡ store.old.signature }
{
    let left = left_of(alloc, kind, number)?;
    enter_term(alloc, store, signature, &left)?;
    let right = right_of(alloc, kind, number)?;
    enter_term(alloc, store, signature, &right)
}

/// Gives the sides of the first equations, so many, names.
pub fn enter_equations(
    alloc: Global,
    store: &mut Store,
    signature: &Signature,
    kind: Kind,
    count: usize,
) -> Result<(), AllocError>
    requires { signature.now ≡ store.old.signature }
    ensures { store.new.signature ≡ store.old.signature }
{
    for number in 0..count {
        enter_equation(alloc, store, signature, kind, number)?;
    }
    Ok(())
}

/// Whether a term has a name.
fn has_name(store: &Store, term: &Term) -> Result<bool, AllocError>
    ensures { IfOk result (λ r. IsTrue r → Contains (terms_in store.now) term.now) }
{
    let name = name_of(store, term)?;
    Ok(name.is_some())
}

/// The literal that two terms are equal, in a list of its own.
fn literal(alloc: Global, left: &Term, right: &Term) -> Result<List<Lit>, AllocError>
    ensures { IfOk result (λ ls. ls ≡ record { positive = true; formula = Eq left.now right.now } ∷ []) }
{
    let left = copy_term(alloc, left)?;
    let right = copy_term(alloc, right)?;
    let mut lits = List::new(alloc);
    lits.push(Lit {
        positive: true,
        formula: Formula::Eq { left, right },
    })?;
    Ok(lits)
}

/// Assumes that two terms are equal that have names.
fn assume_named(
    alloc: Global,
    store: &Store,
    state: &mut State,
    left: &Term,
    right: &Term,
    tag: usize,
) -> Result<(), AllocError>
    requires fits { FitsStore state.old store.now }
    requires named { AreNamed store.now (Eq left.now right.now) }
    ensures fits { FitsStore state.new store.now }
    ensures step { (js : List Line) → IsInStep state.old js → IsInStep state.new js }
    ensures marks { (m : MarkView) (then : Holding) → IsMarkOf state.old m then → IsMarkOf state.new m then }
{
    let lits = literal(alloc, left, right)?;
    match at(lits.as_slice(), 0) {
        Some(lit) => state.assume(alloc, store, lit, tag),
        None => Ok(()),
    }
}

/// Assumes that two terms are equal, where they have names.
fn assume_equal(
    alloc: Global,
    store: &Store,
    state: &mut State,
    left: &Term,
    right: &Term,
    tag: usize,
) -> Result<(), AllocError>
    requires fits { FitsStore state.old store.now }
    ensures fits { FitsStore state.new store.now }
    ensures step { (js : List Line) → IsInStep state.old js → IsInStep state.new js }
    ensures marks { (m : MarkView) (then : Holding) → IsMarkOf state.old m then → IsMarkOf state.new m then }
{
    let first = has_name(store, left)?;
    if !first {
        return Ok(());
    }
    let second = has_name(store, right)?;
    if !second {
        return Ok(());
    }
    assume_named(alloc, store, state, left, right, tag)
}

/// Assumes the equation of a number.
pub fn assume_equation(
    alloc: Global,
    store: &Store,
    state: &mut State,
    kind: Kind,
    number: usize,
) -> Result<(), AllocError>
    requires fits { FitsStore state.old store.now }
    ensures fits { FitsStore state.new store.now }
    ensures step { (js : List Line) → IsInStep state.old js → IsInStep state.new js }
    ensures marks { (m : MarkView) (then : Holding) → IsMarkOf state.old m then → IsMarkOf state.new m then }
{
    let left = left_of(alloc, kind, number)?;
    let right = right_of(alloc, kind, number)?;
    assume_equal(alloc, store, state, &left, &right, number)
}

/// Assumes the first equations, so many.
pub fn assume_equations(
    alloc: Global,
    store: &Store,
    state: &mut State,
    kind: Kind,
    count: usize,
) -> Result<(), AllocError>
    requires fits { FitsStore state.old store.now }
    ensures fits { FitsStore state.new store.now }
    ensures step { (js : List Line) → IsInStep state.old js → IsInStep state.new js }
    ensures marks { (m : MarkView) (then : Holding) → IsMarkOf state.old m then → IsMarkOf state.new m then }
{
    for number in 0..count {
        assume_equation(alloc, store, state, kind, number)?;
    }
    Ok(())
}
