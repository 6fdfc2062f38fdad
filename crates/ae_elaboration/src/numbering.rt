//! The type variables of a formula and their numbers: by first occurrence, from 0.

ghost use Rattle.std.specs.Prelude.{◌≡◌, ◌++◌, map, OnOk, IfOk};
ghost use Rattle.std.specs.List.{flat_map};
ghost use Rattle.ae_elab.specs.Numbering as rule;

use crate::variables::Variables;
use ae_core::formulas::{Formula, Quant};
use ae_core::lists::{Boxed, List};
use ae_core::terms::{Sort, Term};
use std::alloc::{AllocError, Global};

// The type variables of a sort, behind others.
#[tactic(auto, using(crate::proofs::CollectLaws::opens))]
fn collect_sort(variables: &mut Variables, sort: &Sort) -> Result<(), AllocError>
    ensures { OnOk result (variables.new ≡ rule.once_more variables.old (rule.open_sorts sort.now)) }
{
    match sort {
        Sort::Var(n) => {
            variables.push_unknown(*n)?;
            Ok(())
        }
        Sort::Rigid(n) => {
            variables.push_written(*n)?;
            Ok(())
        }
        Sort::Int => Ok(()),
        Sort::Real => Ok(()),
        Sort::Bool => Ok(()),
        Sort::Unit => Ok(()),
        Sort::Named { head: _, args } => {
            for arg in args.as_slice() {
                collect_sort(variables, arg)?;
            }
            Ok(())
        }
    }
}

// Those of sorts.
fn collect_sorts(variables: &mut Variables, sorts: &[Sort]) -> Result<(), AllocError>
    ensures { OnOk result (variables.new ≡ rule.once_more variables.old (flat_map rule.open_sorts sorts.now)) }
{
    for sort in sorts {
        collect_sort(variables, sort)?;
    }
    Ok(())
}

// Those of a term.
#[tactic(auto, using(crate::proofs::CollectLaws::term_sorts))]
fn collect_term(variables: &mut Variables, term: &Term) -> Result<(), AllocError>
    ensures { OnOk result (variables.new ≡ rule.once_more variables.old (flat_map rule.open_sorts (rule.sorts_in_term term.now))) }
{
    match term {
        Term::Bound(_) => Ok(()),
        Term::Num {
            top: _,
            bottom: _,
            real: _,
        } => Ok(()),
        Term::Fresh { number: _, sort } => {
            collect_sort(variables, sort.get())?;
            Ok(())
        }
        Term::Apply {
            head: _,
            sorts,
            args,
        } => {
            collect_sorts(variables, sorts.as_slice())?;
            for arg in args.as_slice() {
                collect_term(variables, arg)?;
            }
            Ok(())
        }
    }
}

// Those of terms.
fn collect_terms(variables: &mut Variables, terms: &[Term]) -> Result<(), AllocError>
    ensures { OnOk result (variables.new ≡ rule.once_more variables.old (flat_map rule.open_sorts (flat_map rule.sorts_in_term terms.now))) }
{
    for term in terms {
        collect_term(variables, term)?;
    }
    Ok(())
}

// Those of triggers.
fn collect_triggers(variables: &mut Variables, triggers: &[List<Term>]) -> Result<(), AllocError>
    ensures { OnOk result (variables.new ≡ rule.once_more variables.old (flat_map rule.open_sorts (flat_map (flat_map rule.sorts_in_term) triggers.now))) }
{
    for trigger in triggers {
        collect_terms(variables, trigger.as_slice())?;
    }
    Ok(())
}

// Those of two terms.
#[tactic(auto, using(crate::proofs::CollectLaws::collected))]
fn collect_two(variables: &mut Variables, left: &Term, right: &Term) -> Result<(), AllocError>
    ensures { OnOk result (variables.new ≡ rule.once_more variables.old (flat_map rule.open_sorts (rule.sorts_in_term left.now ++ rule.sorts_in_term right.now))) }
{
    collect_term(variables, left)?;
    collect_term(variables, right)?;
    Ok(())
}

// Those of a block.
#[cycle(collect)]
fn collect_block(variables: &mut Variables, quant: &Quant) -> Result<(), AllocError>
    ensures { OnOk result (variables.new ≡ rule.once_more variables.old (flat_map rule.open_sorts (rule.sorts_in_block quant.now))) }
{
    let sorts = quant.sorts.as_slice();
    collect_sorts(variables, sorts)?;
    let triggers = quant.triggers.as_slice();
    collect_triggers(variables, triggers)?;
    let body = quant.body.get();
    collect(variables, body)?;
    Ok(())
}

// Those of a formula, in the order of the text.
#[cycle(collect)]
#[tactic(auto, using(crate::proofs::CollectLaws::formula_sorts, crate::proofs::CollectLaws::collected))]
fn collect(variables: &mut Variables, formula: &Formula) -> Result<(), AllocError>
    ensures { OnOk result (variables.new ≡ rule.once_more variables.old (flat_map rule.open_sorts (rule.sorts_in formula.now))) }
{
    match formula {
        Formula::True => Ok(()),
        Formula::False => Ok(()),
        Formula::Eq { left, right } => {
            collect_two(variables, left, right)?;
            Ok(())
        }
        Formula::Lt { left, right } => {
            collect_two(variables, left, right)?;
            Ok(())
        }
        Formula::Le { left, right } => {
            collect_two(variables, left, right)?;
            Ok(())
        }
        Formula::Pred {
            symbol: _,
            sorts,
            args,
        } => {
            collect_sorts(variables, sorts.as_slice())?;
            collect_terms(variables, args.as_slice())?;
            Ok(())
        }
        Formula::Not(part) => {
            collect(variables, part.get())?;
            Ok(())
        }
        Formula::And(left, right) => {
            collect(variables, left.get())?;
            collect(variables, right.get())?;
            Ok(())
        }
        Formula::Or(left, right) => {
            collect(variables, left.get())?;
            collect(variables, right.get())?;
            Ok(())
        }
        Formula::Xor(left, right) => {
            collect(variables, left.get())?;
            collect(variables, right.get())?;
            Ok(())
        }
        Formula::Iff(left, right) => {
            collect(variables, left.get())?;
            collect(variables, right.get())?;
            Ok(())
        }
        Formula::All(quant) => {
            collect_block(variables, quant)?;
            Ok(())
        }
        Formula::Ex(quant) => {
            collect_block(variables, quant)?;
            Ok(())
        }
    }
}

/// The type variables of a formula, each once, by first occurrence in the order of the text.
pub fn variables_of(alloc: Global, formula: &Formula) -> Result<Variables, AllocError>
    ensures { IfOk result (λ vs. vs ≡ rule.variables_among_sorts (rule.sorts_in formula.now)) }
{
    let mut variables = Variables::new(alloc);
    collect(&mut variables, formula)?;
    Ok(variables)
}

// A type variable by its place: `Rigid` in a goal, and `Var` in an axiom.
fn by_place(is_goal: bool, place: Option<usize>) -> Sort
    ensures { result ≡ rule.by_place is_goal place }
{
    match (place, is_goal) {
        (Some(number), true) => Sort::Rigid(number),
        (Some(number), false) => Sort::Var(number),
        (None, _) => Sort::Unit,
    }
}

/// A sort with its type variables numbered.
#[tactic(auto, using(crate::proofs::CollectLaws::sort_numbers))]
pub fn numbered_sort(
    alloc: Global,
    is_goal: bool,
    variables: &Variables,
    sort: &Sort,
) -> Result<Sort, AllocError>
    ensures { IfOk result (λ s. s ≡ rule.numbered_sort is_goal variables.now sort.now) }
{
    match sort {
        Sort::Var(n) => Ok(by_place(is_goal, variables.unknown_number(*n))),
        Sort::Rigid(n) => Ok(by_place(is_goal, variables.written_number(*n))),
        Sort::Int => Ok(Sort::Int),
        Sort::Real => Ok(Sort::Real),
        Sort::Bool => Ok(Sort::Bool),
        Sort::Unit => Ok(Sort::Unit),
        Sort::Named { head, args } => {
            let mut sorts = List::new(alloc);
            for arg in args.as_slice() {
                sorts.push(numbered_sort(alloc, is_goal, variables, arg)?)?;
            }
            Ok(Sort::Named {
                head: *head,
                args: sorts,
            })
        }
    }
}

fn numbered_sorts(
    alloc: Global,
    is_goal: bool,
    variables: &Variables,
    sorts: &[Sort],
) -> Result<List<Sort>, AllocError>
    ensures { IfOk result (λ ss. ss ≡ map (rule.numbered_sort is_goal variables.now) sorts.now) }
{
    let mut copies = List::new(alloc);
    for sort in sorts {
        copies.push(numbered_sort(alloc, is_goal, variables, sort)?)?;
    }
    Ok(copies)
}

#[tactic(auto, using(crate::proofs::CollectLaws::term_numbers))]
fn numbered_term(
    alloc: Global,
    is_goal: bool,
    variables: &Variables,
    term: &Term,
) -> Result<Term, AllocError>
    ensures { IfOk result (λ t. t ≡ rule.with_sorts_term (rule.numbered_sort is_goal variables.now) term.now) }
{
    match term {
        Term::Bound(n) => Ok(Term::Bound(*n)),
        Term::Num { top, bottom, real } => Ok(Term::Num {
            top: *top,
            bottom: *bottom,
            real: *real,
        }),
        Term::Fresh { number, sort } => Ok(Term::Fresh {
            number: *number,
            sort: Boxed::new(alloc, numbered_sort(alloc, is_goal, variables, sort.get())?)?,
        }),
        Term::Apply { head, sorts, args } => {
            let sorts = numbered_sorts(alloc, is_goal, variables, sorts.as_slice())?;
            let mut copies = List::new(alloc);
            for arg in args.as_slice() {
                copies.push(numbered_term(alloc, is_goal, variables, arg)?)?;
            }
            Ok(Term::Apply {
                head: *head,
                sorts,
                args: copies,
            })
        }
    }
}

fn numbered_terms(
    alloc: Global,
    is_goal: bool,
    variables: &Variables,
    terms: &[Term],
) -> Result<List<Term>, AllocError>
    ensures { IfOk result (λ ts. ts ≡ map (rule.with_sorts_term (rule.numbered_sort is_goal variables.now)) terms.now) }
{
    let mut copies = List::new(alloc);
    for term in terms {
        copies.push(numbered_term(alloc, is_goal, variables, term)?)?;
    }
    Ok(copies)
}

fn numbered_triggers(
    alloc: Global,
    is_goal: bool,
    variables: &Variables,
    triggers: &[List<Term>],
) -> Result<List<List<Term>>, AllocError>
    ensures { IfOk result (λ ts. ts ≡ map (map (rule.with_sorts_term (rule.numbered_sort is_goal variables.now))) triggers.now) }
{
    let mut copies = List::new(alloc);
    for trigger in triggers {
        copies.push(numbered_terms(alloc, is_goal, variables, trigger.as_slice())?)?;
    }
    Ok(copies)
}

#[cycle(numbered)]
#[tactic(auto, using(ae_elab::proofs::NumberRules::with_block))]
fn numbered_block(
    alloc: Global,
    is_goal: bool,
    variables: &Variables,
    quant: &Quant,
) -> Result<Quant, AllocError>
    ensures { IfOk result (λ q. q ≡ rule.with_sorts_block (rule.numbered_sort is_goal variables.now) quant.now) }
{
    let sorts = numbered_sorts(alloc, is_goal, variables, quant.sorts.as_slice())?;
    let triggers = numbered_triggers(alloc, is_goal, variables, quant.triggers.as_slice())?;
    let body = numbered_boxed(alloc, is_goal, variables, &quant.body)?;
    Ok(Quant {
        sorts,
        triggers,
        body,
    })
}

#[cycle(numbered)]
fn numbered_boxed(
    alloc: Global,
    is_goal: bool,
    variables: &Variables,
    formula: &Boxed<Formula>,
) -> Result<Boxed<Formula>, AllocError>
    ensures { IfOk result (λ f. f ≡ rule.numbered is_goal variables.now formula.now) }
{
    Boxed::new(alloc, numbered(alloc, is_goal, variables, formula.get())?)
}

/// A formula with its type variables numbered: `Var` in an axiom, `Rigid` in a goal.
#[cycle(numbered)]
#[tactic(auto, using(crate::proofs::CollectLaws::formula_numbers))]
pub fn numbered(
    alloc: Global,
    is_goal: bool,
    variables: &Variables,
    formula: &Formula,
) -> Result<Formula, AllocError>
    ensures { IfOk result (λ f. f ≡ rule.numbered is_goal variables.now formula.now) }
{
    match formula {
        Formula::True => Ok(Formula::True),
        Formula::False => Ok(Formula::False),
        Formula::Eq { left, right } => Ok(Formula::Eq {
            left: numbered_term(alloc, is_goal, variables, left)?,
            right: numbered_term(alloc, is_goal, variables, right)?,
        }),
        Formula::Lt { left, right } => Ok(Formula::Lt {
            left: numbered_term(alloc, is_goal, variables, left)?,
            right: numbered_term(alloc, is_goal, variables, right)?,
        }),
        Formula::Le { left, right } => Ok(Formula::Le {
            left: numbered_term(alloc, is_goal, variables, left)?,
            right: numbered_term(alloc, is_goal, variables, right)?,
        }),
        Formula::Pred {
            symbol,
            sorts,
            args,
        } => Ok(Formula::Pred {
            symbol: *symbol,
            sorts: numbered_sorts(alloc, is_goal, variables, sorts.as_slice())?,
            args: numbered_terms(alloc, is_goal, variables, args.as_slice())?,
        }),
        Formula::Not(part) => Ok(Formula::Not(numbered_boxed(alloc, is_goal, variables, part)?)),
        Formula::And(left, right) => Ok(Formula::And(
            numbered_boxed(alloc, is_goal, variables, left)?,
            numbered_boxed(alloc, is_goal, variables, right)?,
        )),
        Formula::Or(left, right) => Ok(Formula::Or(
            numbered_boxed(alloc, is_goal, variables, left)?,
            numbered_boxed(alloc, is_goal, variables, right)?,
        )),
        Formula::Xor(left, right) => Ok(Formula::Xor(
            numbered_boxed(alloc, is_goal, variables, left)?,
            numbered_boxed(alloc, is_goal, variables, right)?,
        )),
        Formula::Iff(left, right) => Ok(Formula::Iff(
            numbered_boxed(alloc, is_goal, variables, left)?,
            numbered_boxed(alloc, is_goal, variables, right)?,
        )),
        Formula::All(quant) => Ok(Formula::All(numbered_block(alloc, is_goal, variables, quant)?)),
        Formula::Ex(quant) => Ok(Formula::Ex(numbered_block(alloc, is_goal, variables, quant)?)),
    }
}
