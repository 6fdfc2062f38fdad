//! Bindings under which all terms of a trigger equal known names.
ghost use Rattle.std.specs.Prelude.{◌≡◌, ◌∷◌, [], IfOk, length};
ghost use Rattle.std.specs.List.{flat_map};
ghost use Rattle.ae_base.specs.Options.{or_else};
ghost use Rattle.ae_core.specs.declared.terms.Sort.{Unit as UnitSort};
ghost use Rattle.ae_journal.specs.Triggers.{numbers_below};
ghost use Rattle.ae_store.specs.declared.nodes.NodeHead.TheVariants.{Of};
ghost use Rattle.ae_matching.specs.Generating as generating;
ghost use Rattle.ae_matching.specs.SortMatching.{found as found_sort};
ghost use Rattle.ae_matching.specs.Triggers as triggers;
ghost use Rattle.ae_match.specs.Seen.{seen};
ghost use Rattle.ae_known.specs.Index.{HasHeads, with_head};
ghost use Rattle.ae_matches.specs.Candidates as spec;

use ae_core::copies::{copy_sort, copy_terms};
use ae_core::lists::List;
use ae_core::problems::Signature;
use ae_core::terms::{Head, Sort, Term};
use ae_finding::arithmetic::{is_ac, is_arithmetic};
use ae_finding::bindings::{exact_found, name_found, one, one_named};
use ae_finding::generating::{at_node, own_at};
use ae_finding::sites::{bound_site, names_at};
use ae_finding::testing::is_known;
use ae_known::known::Known;
use ae_matching::bindings::Bindings;
use ae_matching::sorts::SortBinding;
use ae_num::forms::Name;
use ae_store::nodes::NodeHead;
use ae_store::store::Store;
use ae_theory::theory::Equalities;
use ae_trigger::patterns::{Pattern, Subst};
use std::alloc::{AllocError, Global};

/// A variable is given a name, where that is known.
fn any_name<E: Equalities>(
    alloc: Global,
    store: &Store,
    equalities: &E,
    known: &Known,
    below: u32,
    variable: usize,
    bindings: &Bindings,
    name: Name,
) -> Result<List<Bindings>, AllocError>
    ensures { IfOk result (λ bs. bs ≡ spec.any_name (seen store.now.signature store.now.nodes) (E.alike equalities.now) below known.now variable bindings.now name) }
{
    if is_known(store, below, name) {
        one_named(alloc, bindings, variable, false, name)
    } else {
        Ok(List::new(alloc))
    }
}

/// A variable without a name is given each that is known.
#[tactic(auto, using(crate::proofs::CandidateRules::flat_numbers))]
fn any_names<E: Equalities>(
    alloc: Global,
    store: &Store,
    equalities: &E,
    known: &Known,
    below: u32,
    variable: usize,
    bindings: &Bindings,
) -> Result<List<Bindings>, AllocError>
    ensures { IfOk result (λ bs. bs ≡ flat_map (spec.any_name (seen store.now.signature store.now.nodes) (E.alike equalities.now) below known.now variable bindings.now) (numbers_below (length store.now.nodes))) }
{
    let mut found = List::new(alloc);
    for name in 0..store.len() {
        let more = any_name(
            alloc, store, equalities, known, below, variable, bindings, name,
        )?;
        found.append(more)?;
    }
    Ok(found)
}

/// A variable equals the name that it has, or each that is known.
#[tactic(auto, using(crate::proofs::CandidateRules::count_seen))]
fn bound_root<E: Equalities>(
    alloc: Global,
    store: &Store,
    equalities: &E,
    known: &Known,
    below: u32,
    variable: usize,
    bindings: &Bindings,
) -> Result<List<Bindings>, AllocError>
    ensures { IfOk result (λ bs. bs ≡ spec.bound_root (seen store.now.signature store.now.nodes) (E.alike equalities.now) below known.now variable bindings.now (generating.name_found variable bindings.now.names)) }
{
    match name_found(variable, bindings.names.as_slice()) {
        None => any_names(alloc, store, equalities, known, below, variable, bindings),
        Some(_) => one(alloc, bindings),
    }
}

/// The bindings under which a term that equals its own name alone is that of a known name of its head.
fn own_roots<E: Equalities>(
    alloc: Global,
    store: &Store,
    equalities: &E,
    known: &Known,
    below: u32,
    term: &Term,
    head: Head,
    bindings: &Bindings,
) -> Result<List<Bindings>, AllocError>
    ensures { IfOk result (λ bs. bs ≡ flat_map (spec.own_root (seen store.now.signature store.now.nodes) (E.alike equalities.now) below known.now term.now bindings.now) (with_head known.now (Of head))) }
{
    let mut found = List::new(alloc);
    for name in known.with_head(NodeHead::Of(head)) {
        let more = own_at(
            alloc, store, equalities, below, term, *name, bindings, *name,
        )?;
        found.append(more)?;
    }
    Ok(found)
}

/// The bindings under which an application is that of one of these names, if it is known.
fn node_roots<E: Equalities>(
    alloc: Global,
    signature: &Signature,
    store: &Store,
    equalities: &E,
    known: &Known,
    below: u32,
    head: Head,
    sorts: &[Sort],
    args: &[Term],
    bindings: &Bindings,
    names: &[Name],
) -> Result<List<Bindings>, AllocError>
    requires same { signature.now ≡ store.now.signature }
    requires fits { E.fits equalities.now store.now }
    requires entered { HasHeads store.now.nodes known.now }
    ensures { IfOk result (λ bs. bs ≡ flat_map (spec.node_root (seen store.now.signature store.now.nodes) (E.alike equalities.now) below known.now head sorts.now args.now bindings.now) names.now) }
{
    let mut found = List::new(alloc);
    for name in names {
        let more = at_node(
            alloc, signature, store, equalities, known, below, head, sorts, args, *name, bindings,
            *name,
        )?;
        found.append(more)?;
    }
    Ok(found)
}

/// The bindings under which an application is that of a known name of its head. Where one of its arguments is a variable that
/// has a name, it is looked for at the names that the index has for this argument, else at all of its head.
fn application_roots<E: Equalities>(
    alloc: Global,
    signature: &Signature,
    store: &Store,
    equalities: &E,
    known: &Known,
    below: u32,
    head: Head,
    sorts: &[Sort],
    args: &[Term],
    bindings: &Bindings,
) -> Result<List<Bindings>, AllocError>
    requires same { signature.now ≡ store.now.signature }
    requires fits { E.fits equalities.now store.now }
    requires entered { HasHeads store.now.nodes known.now }
    ensures { IfOk result (spec.AllAmong (flat_map (spec.node_root (seen store.now.signature store.now.nodes) (E.alike equalities.now) below known.now head sorts.now args.now bindings.now) (with_head known.now (Of head)))) }
{
    match bound_site(args, bindings.names.as_slice(), store.len()) {
        None => node_roots(
            alloc,
            signature,
            store,
            equalities,
            known,
            below,
            head,
            sorts,
            args,
            bindings,
            known.with_head(NodeHead::Of(head)),
        ),
        Some(site) => {
            let either = is_ac(signature, head);
            let names = names_at(alloc, store, equalities, known, head, either, site)?;
            node_roots(
                alloc,
                signature,
                store,
                equalities,
                known,
                below,
                head,
                sorts,
                args,
                bindings,
                names.as_slice(),
            )
        }
    }
}

/// Bindings among which are those under which a term equals some known name.
fn roots<E: Equalities>(
    alloc: Global,
    signature: &Signature,
    store: &Store,
    equalities: &E,
    known: &Known,
    below: u32,
    term: &Term,
    bindings: &Bindings,
) -> Result<List<Bindings>, AllocError>
    requires same { signature.now ≡ store.now.signature }
    requires fits { E.fits equalities.now store.now }
    requires entered { HasHeads store.now.nodes known.now }
    ensures { IfOk result (spec.AllAmong (spec.roots (seen store.now.signature store.now.nodes) (E.alike equalities.now) below known.now term.now bindings.now)) }
{
    match term {
        Term::Bound(variable) => bound_root(
            alloc, store, equalities, known, below, *variable, bindings,
        ),
        Term::Num { .. } => one(alloc, bindings),
        Term::Fresh { .. } => one(alloc, bindings),
        Term::Apply { head, sorts, args } => {
            let computed = is_arithmetic(alloc, term)?;
            if computed {
                return own_roots(
                    alloc, store, equalities, known, below, term, *head, bindings,
                );
            }
            application_roots(
                alloc,
                signature,
                store,
                equalities,
                known,
                below,
                *head,
                sorts.as_slice(),
                args.as_slice(),
                bindings,
            )
        }
    }
}

/// The same from each of these bindings.
fn roots_each<E: Equalities>(
    alloc: Global,
    signature: &Signature,
    store: &Store,
    equalities: &E,
    known: &Known,
    below: u32,
    term: &Term,
    bindings: &[Bindings],
) -> Result<List<Bindings>, AllocError>
    requires same { signature.now ≡ store.now.signature }
    requires fits { E.fits equalities.now store.now }
    requires entered { HasHeads store.now.nodes known.now }
    ensures { IfOk result (spec.AllAmong (flat_map (spec.roots (seen store.now.signature store.now.nodes) (E.alike equalities.now) below known.now term.now) bindings.now)) }
{
    let mut found = List::new(alloc);
    for one in bindings {
        let more = roots(alloc, signature, store, equalities, known, below, term, one)?;
        found.append(more)?;
    }
    Ok(found)
}

/// Bindings among which are those under which each of the terms equals some known name, from each of these.
fn chained<E: Equalities>(
    alloc: Global,
    signature: &Signature,
    store: &Store,
    equalities: &E,
    known: &Known,
    below: u32,
    terms: &[Term],
    bindings: List<Bindings>,
) -> Result<List<Bindings>, AllocError>
    requires same { signature.now ≡ store.now.signature }
    requires fits { E.fits equalities.now store.now }
    requires entered { HasHeads store.now.nodes known.now }
    ensures { IfOk result (spec.AllAmong (spec.chained (seen store.now.signature store.now.nodes) (E.alike equalities.now) below known.now terms.now bindings)) }
{
    let mut found = bindings;
    for term in terms {
        found = roots_each(
            alloc,
            signature,
            store,
            equalities,
            known,
            below,
            term,
            found.as_slice(),
        )?;
    }
    Ok(found)
}

/// The terms of a trigger, and each variable.
#[tactic(auto, using(crate::proofs::CandidateRules::variables_more))]
fn with_variables(alloc: Global, vars: usize, terms: &[Term]) -> Result<List<Term>, AllocError>
    ensures { IfOk result (λ ts. ts ≡ spec.with_variables vars terms.now) }
{
    let mut all = copy_terms(alloc, terms)?;
    for variable in 0..vars {
        all.push(Term::Bound(variable))?;
    }
    Ok(all)
}

/// Bindings among which are those under which each term of a trigger equals some known name, with a name for each variable.
pub fn candidates<E: Equalities>(
    alloc: Global,
    signature: &Signature,
    store: &Store,
    equalities: &E,
    known: &Known,
    below: u32,
    pattern: &Pattern,
) -> Result<List<Bindings>, AllocError>
    requires same { signature.now ≡ store.now.signature }
    requires fits { E.fits equalities.now store.now }
    requires entered { HasHeads store.now.nodes known.now }
    ensures { IfOk result (spec.AllAmong (spec.chained (seen store.now.signature store.now.nodes) (E.alike equalities.now) below known.now (spec.with_variables (length pattern.now.vars) pattern.now.terms) (triggers.empty ∷ []))) }
{
    let terms = with_variables(alloc, pattern.vars.len(), pattern.terms.as_slice())?;
    let mut start = List::new(alloc);
    start.push(Bindings {
        sorts: List::new(alloc),
        names: List::new(alloc),
    })?;
    chained(
        alloc,
        signature,
        store,
        equalities,
        known,
        below,
        terms.as_slice(),
        start,
    )
}

/// The name of its own that a variable has, else the first.
fn choose(bindings: &Bindings, variable: usize) -> Name
    ensures { result ≡ triggers.choose bindings.now variable }
{
    match exact_found(variable, bindings.names.as_slice()) {
        Some(name) => name,
        None => match name_found(variable, bindings.names.as_slice()) {
            Some(name) => name,
            None => 0,
        },
    }
}

/// The names of so many variables, the last variable last.
#[tactic(auto, using(crate::proofs::CandidateRules::picked_rules))]
fn picked(alloc: Global, vars: usize, bindings: &Bindings) -> Result<List<Name>, AllocError>
    ensures { IfOk result (λ ns. ns ≡ triggers.picked vars bindings.now) }
{
    let mut names = List::new(alloc);
    for i in 0..vars {
        names.push(choose(bindings, vars - 1 - i))?;
    }
    Ok(names)
}

/// The sort of a type variable, `unit` where none is found.
fn sort_of_variable(
    alloc: Global,
    bindings: &[SortBinding],
    variable: usize,
) -> Result<Sort, AllocError>
    ensures { IfOk result (λ s. s ≡ or_else (found_sort variable bindings.now) UnitSort) }
{
    for binding in bindings {
        if binding.variable == variable {
            return copy_sort(alloc, &binding.sort);
        }
    }
    Ok(Sort::Unit)
}

/// The sorts of so many type variables.
#[tactic(auto, using(crate::proofs::CandidateRules::sorts_more))]
fn picked_sorts(
    alloc: Global,
    sort_vars: usize,
    bindings: &Bindings,
) -> Result<List<Sort>, AllocError>
    ensures { IfOk result (λ ss. ss ≡ spec.picked_sorts sort_vars bindings.now) }
{
    let mut sorts = List::new(alloc);
    for variable in 0..sort_vars {
        sorts.push(sort_of_variable(alloc, bindings.sorts.as_slice(), variable)?)?;
    }
    Ok(sorts)
}

/// What bindings put for the variables of a pattern.
pub fn subst_of(alloc: Global, pattern: &Pattern, bindings: &Bindings) -> Result<Subst, AllocError>
    ensures { IfOk result (λ m. m ≡ spec.subst_of pattern.now bindings.now) }
{
    Ok(Subst {
        sorts: picked_sorts(alloc, pattern.sort_vars, bindings)?,
        terms: picked(alloc, pattern.vars.len(), bindings)?,
    })
}
