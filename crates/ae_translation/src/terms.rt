//! Terms that hang on conditions, made of the answers for their parts. An error of a part is the error of the whole.
//! They are boxed, and made in frames of their own, so that a walk down a tree takes little of the stack at each level.

ghost use Rattle.std.specs.Prelude.{◌≡◌, ◌∷◌, [], ◌++◌, List, IfOk, IsTrue};
ghost use Rattle.ae_core.specs.declared.formulas.Formula.{Formula};
ghost use Rattle.ae_core.specs.declared.terms.Head.{Head};
ghost use Rattle.ae_core.specs.declared.terms.Head.TheVariants as head;
ghost use Rattle.ae_core.specs.declared.terms.Sort.{Sort};
ghost use Rattle.ae_core.specs.declared.terms.Term.{Term, Apply};
ghost use Rattle.ae_elab.specs.Elaboration as rule;
ghost use Rattle.ae_elab.specs.Elaboration.{◌|>◌, leaf, branch, value_of};
ghost use Rattle.ae_lifting.specs.Lifting.{cases_of};

use crate::answers::both;
use crate::release::release_cases;
use ae_core::formulas::Formula;
use ae_core::lists::{Boxed, List};
use ae_core::terms::{Head, Sort, Term};
use ae_lifting::cases::{Cases, applied, followed};
use std::alloc::{AllocError, Global};

/// No terms.
#[inline(never)]
pub fn no_terms(alloc: Global) -> Result<Boxed<Cases>, AllocError>
    ensures { IfOk result (λ cs. cases_of cs ≡ leaf []) }
{
    Boxed::new(alloc, Cases::Leaf(List::new(alloc)))
}

/// One term without `if`.
#[inline(never)]
pub fn single(alloc: Global, term: Term) -> Result<Boxed<Cases>, AllocError>
    ensures { IfOk result (λ cs. cases_of cs ≡ leaf (term ∷ [])) }
{
    let mut terms = List::new(alloc);
    terms.push(term)?;
    Boxed::new(alloc, Cases::Leaf(terms))
}

/// What stands for a term where there is none.
#[inline(never)]
pub fn void(alloc: Global) -> Result<Boxed<Cases>, AllocError>
    ensures { IfOk result (λ cs. cases_of cs ≡ leaf (Apply head.Void [] [] ∷ [])) }
{
    let term = Term::Apply {
        head: Head::Void,
        sorts: List::new(alloc),
        args: List::new(alloc),
    };
    single(alloc, term)
}

// Terms behind others, in which no `if` stands.
fn joined(first: List<Term>, next: List<Term>) -> Result<Cases, AllocError>
    ensures { IfOk result (λ cs. cases_of cs ≡ leaf (first ++ next)) }
{
    let mut all = first;
    all.append(next)?;
    Ok(Cases::Leaf(all))
}

// Terms in which no `if` stands, behind those of each case.
fn plain_behind(alloc: Global, first: Cases, next: List<Term>) -> Result<Cases, AllocError>
    ensures { IfOk result (λ cs. cases_of cs ≡ (cases_of first |> λ us. leaf (us ++ next))) }
{
    match first {
        Cases::Leaf(terms) => joined(terms, next),
        branch => {
            let more = Cases::Leaf(next);
            followed(alloc, branch, &more)
        }
    }
}

// Terms and others behind them: those without `if` are moved, and not copied.
fn put_behind(alloc: Global, first: Cases, next: Cases) -> Result<Cases, AllocError>
    ensures { IfOk result (λ cs. cases_of cs ≡ (cases_of first |> λ us. cases_of next |> λ vs. leaf (us ++ vs))) }
{
    match next {
        Cases::Leaf(terms) => plain_behind(alloc, first, terms),
        branch => branch_behind(alloc, first, branch),
    }
}

// Whether these are no terms.
fn is_nothing(cases: &Cases) -> bool
    ensures { IsTrue result → cases_of cases.now ≡ leaf [] }
{
    match cases {
        Cases::Leaf(terms) => terms.is_empty(),
        Cases::Branch {
            condition: _,
            positive: _,
            negative: _,
        } => false,
    }
}

// Terms in which `if`s stand, behind those of each case: behind none they are moved, and not copied.
fn branch_behind(alloc: Global, first: Cases, next: Cases) -> Result<Cases, AllocError>
    ensures { IfOk result (λ cs. cases_of cs ≡ (cases_of first |> λ us. cases_of next |> λ vs. leaf (us ++ vs))) }
{
    if is_nothing(&first) {
        return Ok(next);
    }
    let all = followed(alloc, first, &next);
    release_cases(alloc, next);
    all
}

/// Terms and others behind them: under each case of the first ones, those of the others.
#[inline(never)]
pub fn behind(
    alloc: Global,
    first: Result<Boxed<Cases>, AllocError>,
    next: Result<Boxed<Cases>, AllocError>,
) -> Result<Boxed<Cases>, AllocError>
    ensures { (x y : rule.Cases (List Term)) → IfOk first (λ cs. cases_of cs ≡ x) → IfOk next (λ cs. cases_of cs ≡ y)
        → IfOk result (λ cs. cases_of cs ≡ (x |> λ us. y |> λ vs. leaf (us ++ vs))) }
{
    let (first, next) = both(first, next)?;
    let start = first.into_inner();
    let end = next.into_inner();
    let all = put_behind(alloc, start, end)?;
    Boxed::new(alloc, all)
}

/// The application of a head to terms.
#[inline(never)]
pub fn application(
    alloc: Global,
    args: Result<Boxed<Cases>, AllocError>,
    head: Result<Head, AllocError>,
    sorts: Result<List<Sort>, AllocError>,
) -> Result<Boxed<Cases>, AllocError>
    ensures { (x : rule.Cases (List Term)) (h : Head) (ss : List Sort) → IfOk args (λ cs. cases_of cs ≡ x) → IfOk head (λ z. z ≡ h) → IfOk sorts (λ zs. zs ≡ ss)
        → IfOk result (λ cs. cases_of cs ≡ (x |> λ us. leaf (Apply h ss us ∷ []))) }
{
    let parts = both(head, sorts);
    let (args, (head, sorts)) = both(args, parts)?;
    let terms = args.into_inner();
    let all = applied(alloc, terms, head, sorts.as_slice())?;
    Boxed::new(alloc, all)
}

/// `if` between terms.
#[inline(never)]
pub fn chosen(
    alloc: Global,
    condition: Result<Boxed<Formula>, AllocError>,
    positive: Result<Boxed<Cases>, AllocError>,
    negative: Result<Boxed<Cases>, AllocError>,
) -> Result<Boxed<Cases>, AllocError>
    ensures { (f : Formula) (x y : rule.Cases (List Term)) → IfOk condition (λ g. g ≡ f) → IfOk positive (λ cs. cases_of cs ≡ x) → IfOk negative (λ cs. cases_of cs ≡ y)
        → IfOk result (λ cs. cases_of cs ≡ branch f x y) }
{
    let cases = both(positive, negative);
    let (condition, (positive, negative)) = both(condition, cases)?;
    let condition = condition.into_inner();
    let whole = Cases::Branch {
        condition,
        positive,
        negative,
    };
    Boxed::new(alloc, whole)
}

/// The terms where no condition holds.
pub fn last_case(cases: Cases) -> List<Term>
    ensures { result ≡ value_of (cases_of cases) }
{
    match cases {
        Cases::Leaf(terms) => terms,
        Cases::Branch {
            condition: _,
            positive: _,
            negative,
        } => {
            let inner = negative.into_inner();
            last_case(inner)
        }
    }
}

// A trigger behind others.
fn pushed(triggers: List<List<Term>>, trigger: List<Term>) -> Result<List<List<Term>>, AllocError>
    ensures { IfOk result (λ ts. ts ≡ triggers ++ trigger ∷ []) }
{
    let mut all = triggers;
    all.push(trigger)?;
    Ok(all)
}

/// A trigger behind others: its terms, in which no `if` stands.
#[inline(never)]
pub fn with_trigger(
    triggers: List<List<Term>>,
    terms: Result<Boxed<Cases>, AllocError>,
) -> Result<List<List<Term>>, AllocError>
    ensures { (x : rule.Cases (List Term)) → IfOk terms (λ cs. cases_of cs ≡ x) → IfOk result (λ ts. ts ≡ triggers ++ value_of x ∷ []) }
{
    match terms {
        Ok(cases) => {
            let inner = cases.into_inner();
            let trigger = last_case(inner);
            pushed(triggers, trigger)
        }
        Err(error) => Err(error),
    }
}
