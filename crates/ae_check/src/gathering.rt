//! The fresh constants of lines, gathered into a set, and whether those that a line puts are new. Each line is looked at once.
ghost use Rattle.std.specs.Prelude.{◌≡◌, ◌∷◌, [], ◌+◌, ◌≤◌, ◌^◌, ◌||◌, length, not, IfOk, OnOk, Some};
ghost use Rattle.std.specs.List.{list_any};
ghost use Rattle.ae_core.specs.declared.formulas.Formula.{out-Formula};
ghost use Rattle.ae_core.specs.declared.terms.Term.{Fresh as FreshTerm};
ghost use Rattle.ae_rules.specs.Derivations as derivations;
ghost use Rattle.ae_rules.specs.Instances as instances;
ghost use Rattle.ae_calc.specs.Inner.Mentions as spec;
ghost use Rattle.ae_check.specs.Inner.ConstantSets.{IsGathered, AreNumbered, any_has, has_none};

use crate::constants::Constant;
use ae_calc::instances::count_from;
use ae_calc::mentions::formula_mentions;
use ae_core::copies::copy_sort;
use ae_core::formulas::{Formula, Lit, Quant};
use ae_core::lists::{Boxed, List};
use ae_core::proofs::{ClauseLine, EqLine};
use ae_core::terms::{Sort, Term};
use ae_rules::facts::stated;
use std::alloc::{AllocError, Global};
use std::collections::BTreeSet;

/// The constant of this number and sort.
fn constant_of(alloc: Global, number: usize, sort: &Sort) -> Result<Constant, AllocError>
    ensures { IfOk result (λ constant. constant.term ≡ FreshTerm number sort.now) }
{
    let sort = Boxed::new(alloc, copy_sort(alloc, sort)?)?;
    Ok(Constant {
        term: Term::Fresh { number, sort },
    })
}

/// Adds a constant.
fn add_constant(
    alloc: Global,
    constants: &mut BTreeSet<Constant>,
    number: usize,
    sort: &Sort,
) -> Result<(), AllocError>
    ensures { OnOk result (IsGathered constants.old constants.new (λ n s. spec.is_put n (s ∷ []) (FreshTerm number sort.now))) }
{
    let constant = constant_of(alloc, number, sort)?;
    match constants.insert(constant) {
        Ok(_) => Ok(()),
        Err(failed) => Err(AllocError::from(failed)),
    }
}

/// Gathers the constants of a term.
#[cycle(gather_term)]
fn gather_term(
    alloc: Global,
    constants: &mut BTreeSet<Constant>,
    term: &Term,
) -> Result<(), AllocError>
    ensures { OnOk result (IsGathered constants.old constants.new (λ n s. spec.mentions n (s ∷ []) term.now)) }
{
    match term {
        Term::Bound(_) => Ok(()),
        Term::Num { .. } => Ok(()),
        Term::Fresh { number, sort } => add_constant(alloc, constants, *number, sort.get()),
        Term::Apply { args, .. } => gather_terms(alloc, constants, args.as_slice()),
    }
}

/// Gathers the constants of terms.
#[cycle(gather_term)]
fn gather_terms(
    alloc: Global,
    constants: &mut BTreeSet<Constant>,
    terms: &[Term],
) -> Result<(), AllocError>
    ensures { OnOk result (IsGathered constants.old constants.new (λ n s. list_any (spec.mentions n (s ∷ [])) terms.now)) }
{
    for term in terms {
        gather_term(alloc, constants, term)?;
    }
    Ok(())
}

/// Gathers the constants of two terms.
fn gather_sides(
    alloc: Global,
    constants: &mut BTreeSet<Constant>,
    left: &Term,
    right: &Term,
) -> Result<(), AllocError>
    ensures { OnOk result (IsGathered constants.old constants.new (λ n s. spec.mentions n (s ∷ []) left.now || spec.mentions n (s ∷ []) right.now)) }
{
    gather_term(alloc, constants, left)?;
    gather_term(alloc, constants, right)
}

/// Gathers the constants of triggers.
fn gather_triggers(
    alloc: Global,
    constants: &mut BTreeSet<Constant>,
    triggers: &[List<Term>],
) -> Result<(), AllocError>
    ensures { OnOk result (IsGathered constants.old constants.new (λ n s. list_any (list_any (spec.mentions n (s ∷ []))) triggers.now)) }
{
    for trigger in triggers {
        gather_terms(alloc, constants, trigger.as_slice())?;
    }
    Ok(())
}

/// Gathers the constants of a block, its triggers included.
#[cycle(gather_formula)]
fn gather_quant(
    alloc: Global,
    constants: &mut BTreeSet<Constant>,
    quant: &Quant,
) -> Result<(), AllocError>
    ensures { OnOk result (IsGathered constants.old constants.new (λ n s. spec.quant_mentions n (s ∷ []) quant.now)) }
{
    gather_triggers(alloc, constants, quant.triggers.as_slice())?;
    gather_formula(alloc, constants, quant.body.get())
}

/// Gathers the constants of a formula, its triggers included.
#[cycle(gather_formula)]
fn gather_formula(
    alloc: Global,
    constants: &mut BTreeSet<Constant>,
    formula: &Formula,
) -> Result<(), AllocError>
    ensures { OnOk result (IsGathered constants.old constants.new (λ n s. spec.formula_mentions n (s ∷ []) formula.now)) }
{
    match formula {
        Formula::True => Ok(()),
        Formula::False => Ok(()),
        Formula::Eq { left, right } => gather_sides(alloc, constants, left, right),
        Formula::Lt { left, right } => gather_sides(alloc, constants, left, right),
        Formula::Le { left, right } => gather_sides(alloc, constants, left, right),
        Formula::Pred { args, .. } => gather_terms(alloc, constants, args.as_slice()),
        Formula::Not(part) => gather_formula(alloc, constants, part.get()),
        Formula::And(left, right) => {
            gather_formula(alloc, constants, left.get())?;
            gather_formula(alloc, constants, right.get())
        }
        Formula::Or(left, right) => {
            gather_formula(alloc, constants, left.get())?;
            gather_formula(alloc, constants, right.get())
        }
        Formula::Xor(left, right) => {
            gather_formula(alloc, constants, left.get())?;
            gather_formula(alloc, constants, right.get())
        }
        Formula::Iff(left, right) => {
            gather_formula(alloc, constants, left.get())?;
            gather_formula(alloc, constants, right.get())
        }
        Formula::All(quant) => gather_quant(alloc, constants, quant),
        Formula::Ex(quant) => gather_quant(alloc, constants, quant),
    }
}

/// Gathers the constants of a clause.
fn gather_clause(
    alloc: Global,
    constants: &mut BTreeSet<Constant>,
    clause: &[Lit],
) -> Result<(), AllocError>
    ensures { OnOk result (IsGathered constants.old constants.new (λ n s. spec.clause_mentions n (s ∷ []) clause.now)) }
{
    for lit in clause {
        gather_formula(alloc, constants, &lit.formula)?;
    }
    Ok(())
}

/// Gathers the constants of what a derived line states.
fn gather_stated(
    alloc: Global,
    constants: &mut BTreeSet<Constant>,
    line: &EqLine,
) -> Result<(), AllocError>
    ensures { OnOk result (IsGathered constants.old constants.new (λ n s. spec.derived_mentions n (s ∷ []) line.now)) }
{
    let (_relation, left, right) = stated(line);
    gather_sides(alloc, constants, left, right)
}

/// Gathers the constants of what derived lines state.
fn gather_derived(
    alloc: Global,
    constants: &mut BTreeSet<Constant>,
    lines: &[EqLine],
) -> Result<(), AllocError>
    ensures { OnOk result (IsGathered constants.old constants.new (λ n s. list_any (spec.derived_mentions n (s ∷ [])) lines.now)) }
{
    for line in lines {
        gather_stated(alloc, constants, line)?;
    }
    Ok(())
}

/// The sorts of the variables of a block, and none where the formula isn't one.
fn block_sorts(formula: &Formula) -> &[Sort]
    ensures { result.now ≡ instances.block_sorts (out-Formula formula.now) }
{
    match formula {
        Formula::All(quant) => quant.sorts.as_slice(),
        Formula::Ex(quant) => quant.sorts.as_slice(),
        _ => &[],
    }
}

/// Gathers the constants that a line puts for the variables of a block.
fn gather_put(
    alloc: Global,
    constants: &mut BTreeSet<Constant>,
    first: usize,
    formula: &Formula,
) -> Result<(), AllocError>
    requires { first + length (instances.block_sorts (out-Formula formula.now)) ≤ 2 ^ 64 }
    ensures { OnOk result (IsGathered constants.old constants.new (λ n s. list_any (spec.is_put n (s ∷ [])) (instances.fresh_terms first formula.now))) }
{
    let put = count_from(alloc, first, block_sorts(formula))?;
    gather_terms(alloc, constants, put.as_slice())
}

/// Gathers the constants that stand in a line itself.
fn gather_own(
    alloc: Global,
    constants: &mut BTreeSet<Constant>,
    line: &ClauseLine,
) -> Result<(), AllocError>
    requires { AreNumbered line.now }
    ensures { OnOk result (IsGathered constants.old constants.new (λ n s. spec.own_mentions n (s ∷ []) line.now)) }
{
    match line {
        ClauseLine::Hyp { .. } => Ok(()),
        ClauseLine::Goal => Ok(()),
        ClauseLine::Def { formula, .. } => gather_formula(alloc, constants, formula),
        ClauseLine::Inst { formula, terms } => {
            gather_formula(alloc, constants, formula)?;
            gather_terms(alloc, constants, terms.as_slice())
        }
        ClauseLine::Fresh { formula, first } => {
            gather_formula(alloc, constants, formula)?;
            gather_put(alloc, constants, *first, formula)
        }
        ClauseLine::Exh { term } => gather_term(alloc, constants, term),
        ClauseLine::Tri { left, right } => gather_sides(alloc, constants, left, right),
        ClauseLine::Block(block) => {
            gather_clause(alloc, constants, block.deriv.hyps.as_slice())?;
            gather_derived(alloc, constants, block.deriv.lines.as_slice())
        }
        ClauseLine::Rup { clause, .. } => gather_clause(alloc, constants, clause.as_slice()),
    }
}

/// Gathers the constants of a line and of the clause that it states.
pub(crate) fn gather_line(
    alloc: Global,
    constants: &mut BTreeSet<Constant>,
    line: &ClauseLine,
    clause: &[Lit],
) -> Result<(), AllocError>
    requires { AreNumbered line.now }
    ensures { OnOk result (IsGathered constants.old constants.new (λ n s. spec.own_mentions n (s ∷ []) line.now || spec.clause_mentions n (s ∷ []) clause.now)) }
{
    gather_own(alloc, constants, line)?;
    gather_clause(alloc, constants, clause)
}

/// Whether one of the constants of these sorts, numbered from `first`, was gathered.
fn has_any(
    alloc: Global,
    constants: &BTreeSet<Constant>,
    first: usize,
    sorts: &[Sort],
) -> Result<bool, AllocError>
    requires { first + length sorts.now ≤ 2 ^ 64 }
    ensures { IfOk result (λ found. found ≡ any_has constants.now first sorts.now) }
{
    for i in 0..sorts.len() {
        let constant = constant_of(alloc, first + i, &sorts[i])?;
        if constants.contains(&constant) {
            return Ok(true);
        }
    }
    Ok(false)
}

/// Whether none of the constants that a line puts for the variables of a block was gathered or stands in the block.
pub(crate) fn are_new(
    alloc: Global,
    constants: &BTreeSet<Constant>,
    first: usize,
    formula: &Formula,
) -> Result<bool, AllocError>
    requires { first + length (instances.block_sorts (out-Formula formula.now)) ≤ 2 ^ 64 }
    ensures { IfOk result (λ new. new ≡ has_none constants.now first (instances.block_sorts (out-Formula formula.now)) formula.now) }
{
    let sorts = block_sorts(formula);
    if formula_mentions(formula, first, sorts) {
        return Ok(false);
    }
    Ok(!has_any(alloc, constants, first, sorts)?)
}
