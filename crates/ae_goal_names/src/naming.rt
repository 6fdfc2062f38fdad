//! Names for the terms of clauses.
ghost use Rattle.std.specs.Prelude.{◌≡◌, [], ◌∷◌, ◌++◌, true, map, OnOk};
ghost use Rattle.ae_core.specs.Sorts.{formula_ok};
ghost use Rattle.ae_core.specs.declared.terms.Head.TheVariants.{Symbol};
ghost use Rattle.ae_core.specs.declared.terms.Term.{Apply};
ghost use Rattle.ae_goal_names.specs.Named.{HasNamed, clause_terms, all_terms};
ghost use Rattle.ae_journal.specs.States.{outside};
ghost use Rattle.ae_rules.specs.Derivations.{clause_ok};
ghost use Rattle.ae_store.specs.Names.{enterable};
ghost use Rattle.std.specs.List.{AllByRecursion};

use ae_core::copies::{copy_sorts, copy_terms};
use ae_core::formulas::{Clause, Formula, Lit};
use ae_core::lists::List;
use ae_core::problems::Signature;
use ae_core::terms::{Head, Sort, Term};
use ae_store::store::Store;
use std::alloc::{AllocError, Global};

/// Names a term.
fn name_term(store: &mut Store, signature: &Signature, term: &Term) -> Result<(), AllocError>
    requires same { signature.now ≡ store.old.signature }
    requires known { enterable signature.now term.now ≡ true }
    ensures { OnOk result (HasNamed store.old store.new (term.now ∷ [])) }
{
    store.intern(signature, term, 0)?;
    let _count = store.len();
    Ok(())
}

/// Names two terms.
fn name_both(
    store: &mut Store,
    signature: &Signature,
    left: &Term,
    right: &Term,
) -> Result<(), AllocError>
    requires same { signature.now ≡ store.old.signature }
    requires left { enterable signature.now left.now ≡ true }
    requires right { enterable signature.now right.now ≡ true }
    ensures { OnOk result (HasNamed store.old store.new (left.now ∷ right.now ∷ [])) }
{
    name_term(store, signature, left)?;
    name_term(store, signature, right)
}

/// Names a predicate's application.
fn name_application(
    alloc: Global,
    store: &mut Store,
    signature: &Signature,
    symbol: usize,
    sorts: &[Sort],
    args: &[Term],
) -> Result<(), AllocError>
    requires same { signature.now ≡ store.old.signature }
    requires known { enterable signature.now (Apply (Symbol symbol) sorts.now args.now) ≡ true }
    ensures { OnOk result (HasNamed store.old store.new (Apply (Symbol symbol) sorts.now args.now ∷ [])) }
{
    let term = Term::Apply {
        head: Head::Symbol(symbol),
        sorts: copy_sorts(alloc, sorts)?,
        args: copy_terms(alloc, args)?,
    };
    name_term(store, signature, &term)
}

/// Names the terms of a formula and its predicate applications, those in quantified parts left out.
fn name_formula(
    alloc: Global,
    store: &mut Store,
    signature: &Signature,
    formula: &Formula,
) -> Result<(), AllocError>
    requires same { signature.now ≡ store.old.signature }
    requires sorted { formula_ok signature.now formula.now ≡ true }
    ensures { OnOk result (HasNamed store.old store.new (outside formula.now)) }
{
    match formula {
        Formula::True => Ok(()),
        Formula::False => Ok(()),
        Formula::All(_) => Ok(()),
        Formula::Ex(_) => Ok(()),
        Formula::Eq { left, right } => name_both(store, signature, left, right),
        Formula::Lt { left, right } => name_both(store, signature, left, right),
        Formula::Le { left, right } => name_both(store, signature, left, right),
        Formula::Pred {
            symbol,
            sorts,
            args,
        } => name_application(
            alloc,
            store,
            signature,
            *symbol,
            sorts.as_slice(),
            args.as_slice(),
        ),
        Formula::Not(part) => name_formula(alloc, store, signature, part.get()),
        Formula::And(left, right) => {
            name_formula(alloc, store, signature, left.get())?;
            name_formula(alloc, store, signature, right.get())
        }
        Formula::Or(left, right) => {
            name_formula(alloc, store, signature, left.get())?;
            name_formula(alloc, store, signature, right.get())
        }
        Formula::Xor(left, right) => {
            name_formula(alloc, store, signature, left.get())?;
            name_formula(alloc, store, signature, right.get())
        }
        Formula::Iff(left, right) => {
            name_formula(alloc, store, signature, left.get())?;
            name_formula(alloc, store, signature, right.get())
        }
    }
}

/// Names the terms of a clause.
fn name_clause(
    alloc: Global,
    store: &mut Store,
    signature: &Signature,
    clause: &[Lit],
) -> Result<(), AllocError>
    requires same { signature.now ≡ store.old.signature }
    requires sorted { clause_ok signature.now clause.now ≡ true }
    ensures { OnOk result (HasNamed store.old store.new (clause_terms clause.now)) }
{
    for lit in clause {
        name_formula(alloc, store, signature, &lit.formula)?;
    }
    Ok(())
}

/// Names the terms and predicate applications of clauses that stand outside quantified parts, with what stands in them: arguments, and the fields of
/// each of record sort. `Err` where there is no memory for the names; some may be there then.
pub fn name_clauses(
    alloc: Global,
    store: &mut Store,
    signature: &Signature,
    clauses: &[Clause],
) -> Result<(), AllocError>
    requires same { signature.now ≡ store.old.signature }
    requires sorted { AllByRecursion (λ c. clause_ok signature.now c ≡ true) clauses.now }
    ensures { OnOk result (HasNamed store.old store.new (all_terms clauses.now)) }
{
    for clause in clauses {
        name_clause(alloc, store, signature, clause.as_slice())?;
    }
    Ok(())
}
