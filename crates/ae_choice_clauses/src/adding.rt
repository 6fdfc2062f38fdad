//! The clauses of named terms of enumerations.
ghost use Rattle.std.specs.Prelude.{◌≡◌, ◌<◌, [], ◌∷◌, ℕ, length, map, slice_get, true, Some, IsTrue, IfOk, OnOk};
ghost use Rattle.std.specs.List.{AllByRecursion, Contains};
ghost use Rattle.ae_core.specs.declared.problems.Problem.{Problem};
ghost use Rattle.ae_core.specs.declared.terms.Term.{Term as TermOf};
ghost use Rattle.ae_choice_clauses.specs.Choices.{AddsChoices};
ghost use Rattle.ae_choice_clauses.specs.Inner.Added as spec;
ghost use Rattle.ae_choice_clauses.specs.Inner.Added.{choices_at, NamesChoices, IsKept};
ghost use Rattle.ae_goal_names.specs.Named.{HasNamed};
ghost use Rattle.ae_open_states.specs.Choices.{IsChoiceOf};
ghost use Rattle.ae_store.specs.Names.{enterable};
ghost use Rattle.ae_theory.specs.Names.{terms_in};

use ae_calc::endings::constant_head;
use ae_calc::enumerations::choices_of;
use ae_core::copies::copy_term;
use ae_core::equality::same_head;
use ae_core::lists::{Boxed, List};
use ae_core::problems::Signature;
use ae_core::proofs::ClauseLine;
use ae_core::sorts::sort_of;
use ae_core::terms::{Head, Term};
use ae_data::enumerations::exhaust;
use ae_first_clauses::{FirstClauses, keep_line};
use ae_store::store::Store;
use std::alloc::{AllocError, Global};

/// The constructors of a term's sort, where it is an enumeration.
fn choices(
    alloc: Global,
    signature: &Signature,
    term: &Term,
) -> Result<Option<List<Head>>, AllocError>
    ensures { IfOk result (λ hs. hs ≡ choices_at signature.now term.now) }
{
    match sort_of(alloc, signature, term)? {
        None => Ok(None),
        Some(sort) => choices_of(alloc, signature, &sort),
    }
}

/// The term of a head without sorts and arguments.
fn constant(alloc: Global, head: Head) -> Term
    ensures { result ≡ spec.constant head }
{
    Term::Apply {
        head,
        sorts: List::new(alloc),
        args: List::new(alloc),
    }
}

/// Names a term at the greatest generation.
fn name_term(signature: &Signature, store: &mut Store, term: &Term) -> Result<(), AllocError>
    requires same { signature.now ≡ store.old.signature }
    requires known { enterable signature.now term.now ≡ true }
    ensures { OnOk result (HasNamed store.old store.new (term.now ∷ [])) }
{
    store.intern(signature, term, u32::MAX)?;
    let _count = store.len();
    Ok(())
}

/// Names a constructor.
fn name_constructor(
    alloc: Global,
    signature: &Signature,
    store: &mut Store,
    head: &Head,
) -> Result<(), AllocError>
    requires same { signature.now ≡ store.old.signature }
    requires known { enterable signature.now (spec.constant head.now) ≡ true }
    ensures { OnOk result (HasNamed store.old store.new (spec.constant head.now ∷ [])) }
{
    let term = constant(alloc, *head);
    name_term(signature, store, &term)
}

/// Names constructors.
fn name_constructors(
    alloc: Global,
    signature: &Signature,
    store: &mut Store,
    heads: &[Head],
) -> Result<(), AllocError>
    requires same { signature.now ≡ store.old.signature }
    requires known { AllByRecursion (λ h. enterable signature.now (spec.constant h) ≡ true) heads.now }
    ensures { OnOk result (HasNamed store.old store.new (map spec.constant heads.now)) }
{
    for head in heads {
        name_constructor(alloc, signature, store, head)?;
    }
    Ok(())
}

/// Whether a head is among others.
fn has_head(heads: &[Head], own: Head) -> bool
    ensures { IsTrue result → Contains heads.now own }
{
    for head in heads {
        if same_head(*head, own) {
            return true;
        }
    }
    false
}

/// Whether a term is one of the constructors of its sort.
fn is_choice(signature: &Signature, heads: &[Head], term: &Term) -> bool
    requires { choices_at signature.now term.now ≡ Some heads.now }
    ensures { IsTrue result → IsChoiceOf signature.now term.now term.now }
{
    match constant_head(term) {
        None => false,
        Some(own) => has_head(heads, own),
    }
}

/// Puts the line of a term behind the others, with its clause.
fn keep_choice(
    alloc: Global,
    signature: &Signature,
    first: &mut FirstClauses,
    term: &Term,
) -> Result<(), AllocError>
    ensures { OnOk result (IsKept signature.now term.now first.old.lines.items first.old.clauses first.new.lines.items first.new.clauses) }
{
    match exhaust(alloc, signature, term)? {
        None => Ok(()),
        Some(clause) => {
            let term = copy_term(alloc, term)?;
            keep_line(first, ClauseLine::Exh { term }, clause)
        }
    }
}

/// Adds what a term of an enumeration with these constructors asks for.
fn add_for(
    alloc: Global,
    signature: &Signature,
    store: &mut Store,
    first: &mut FirstClauses,
    term: &Term,
    heads: &[Head],
) -> Result<(), AllocError>
    requires same { signature.now ≡ store.old.signature }
    requires choices { choices_at signature.now term.now ≡ Some heads.now }
    ensures named { OnOk result (NamesChoices signature.now term.now store.old store.new) }
    ensures kept { OnOk result (IsKept signature.now term.now first.old.lines.items first.old.clauses first.new.lines.items first.new.clauses) }
{
    let _names = store.len();
    name_constructors(alloc, signature, store, heads)?;
    if is_choice(signature, heads, term) {
        Ok(())
    } else {
        keep_choice(alloc, signature, first, term)
    }
}

/// Adds what the term of a name asks for.
fn add_choice(
    alloc: Global,
    signature: &Signature,
    store: &mut Store,
    first: &mut FirstClauses,
    name: usize,
) -> Result<(), AllocError>
    requires same { signature.now ≡ store.old.signature }
    requires within { name < length store.old.nodes }
    ensures named { OnOk result ((u : TermOf) → slice_get (terms_in store.old) name ≡ Some u → NamesChoices signature.now u store.old store.new) }
    ensures kept { OnOk result ((u : TermOf) → slice_get (terms_in store.old) name ≡ Some u → IsKept signature.now u first.old.lines.items first.old.clauses first.new.lines.items first.new.clauses) }
{
    let term = store.term(name)?;
    let held = Boxed::new(alloc, term)?;
    match choices(alloc, signature, held.get())? {
        None => Ok(()),
        Some(heads) => add_for(alloc, signature, store, first, held.get(), heads.as_slice()),
    }
}

/// Adds for each name of an enumeration that is no constructor the line that it is one of the constructors, with its clause, and names the constructors, at
/// the greatest generation, so that nothing is matched by them. `Err` where there is no memory.
pub fn add_choices(
    alloc: Global,
    signature: &Signature,
    store: &mut Store,
    first: &mut FirstClauses,
) -> Result<(), AllocError>
    requires same { signature.now ≡ store.old.signature }
    ensures { OnOk result ((p : Problem) (g : ℕ) → p.signature ≡ signature.now →
        AddsChoices p g store.old store.new first.old.lines.items first.new.lines.items first.old.clauses first.new.clauses) }
{
    for name in 0..store.len() {
        add_choice(alloc, signature, store, first, name)?;
    }
    Ok(())
}
