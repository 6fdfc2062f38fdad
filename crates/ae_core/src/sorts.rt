//! Whether sorts, terms and formulas are closed and well sorted.
ghost use Rattle.std.specs.Prelude.{◌≡◌, ◌∷◌, ◌++◌, [], IfOk, Option, Some, None, map, cond, ◌&&◌, ◌||◌};
ghost use Rattle.std.specs.List.{list_all};
ghost use Rattle.ae_core.specs.declared.terms.Sort.{Int, Real, Named};
ghost use Rattle.ae_core.specs.Putting as putting;
ghost use Rattle.ae_core.specs.Sorts as spec;
ghost use Rattle.ae_base.specs.Options as options;

use crate::copies::{copy_sort, copy_sorts};
use crate::formulas::{Formula, Quant};
use crate::lists::{List, at};
use crate::problems::{FieldEntry, Kind, Signature, SymbolEntry, TypeEntry};
use crate::putting::{put_sort, put_sorts};
use crate::terms::{Head, Op, Sort, Term};
use std::alloc::{AllocError, Global};

/// Whether two sorts are the same, as the definitions say it.
pub fn is_sort(left: &Sort, right: &Sort) -> bool
    ensures { result ≡ spec.same_sort left.now right.now }
{
    crate::equality::same_sort(left, right)
}

/// Whether two lists of sorts are the same, as the definitions say it.
pub fn are_sorts(left: &[Sort], right: &[Sort]) -> bool
    ensures { result ≡ spec.same_sorts left.now right.now }
{
    crate::equality::same_sorts(left, right)
}

/// Whether a type has this number of parameters.
pub fn type_fits(signature: &Signature, head: usize, count: usize) -> bool
    ensures { result ≡ spec.type_fits signature.now head count }
{
    match signature.types.get(head) {
        None => false,
        Some(entry) => entry.arity == count,
    }
}

/// Whether a sort names types of the signature, with their numbers of arguments, and has no type variable.
#[cycle(closed)]
#[tactic(auto, using(crate::proofs::SortLaws::sort_ok_rules))]
pub fn is_closed_sort(signature: &Signature, sort: &Sort) -> bool
    ensures { result ≡ spec.is_closed_sort signature.now sort.now }
{
    match sort {
        Sort::Var(_) => false,
        Sort::Rigid(_) => true,
        Sort::Int => true,
        Sort::Real => true,
        Sort::Bool => true,
        Sort::Unit => true,
        Sort::Named { head, args } => {
            type_fits(signature, *head, args.len()) && are_closed_sorts(signature, args.as_slice())
        }
    }
}

/// Whether each of the sorts is closed.
#[cycle(closed)]
#[tactic(auto, using(crate::proofs::SortLaws::sort_ok_rules))]
pub fn are_closed_sorts(signature: &Signature, sorts: &[Sort]) -> bool
    ensures { result ≡ list_all (spec.is_closed_sort signature.now) sorts.now }
{
    for sort in sorts {
        if !is_closed_sort(signature, sort) {
            return false;
        }
    }
    true
}

/// Whether a number is within the limits.
pub fn is_within(number: i128) -> bool
    ensures { result ≡ spec.within number }
{
    number != i128::MIN
}

/// Whether a numeral is well sorted.
pub fn numeral_ok(top: i128, bottom: i128, real: bool) -> bool
    ensures { result ≡ spec.numeral_ok top bottom real }
{
    is_within(top) && is_within(bottom) && 0 < bottom && (real || !(1 < bottom))
}

/// The sort of a variable by its distance, the innermost variable's sort last.
pub fn variable_sort(
    alloc: Global,
    env: &[Sort],
    distance: usize,
) -> Result<Option<Sort>, AllocError>
    ensures { IfOk result (λ s. s ≡ spec.variable_sort env.now distance) }
{
    if distance >= env.len() {
        return Ok(None);
    }
    let found = copy_sort(alloc, &env[env.len() - 1 - distance])?;
    Ok(Some(found))
}

/// The result's sort of a symbol at these sorts, where the arguments' sorts fit.
pub fn symbol_sort(
    alloc: Global,
    sorts: &[Sort],
    args: &[Sort],
    entry: &SymbolEntry,
) -> Result<Option<Sort>, AllocError>
    ensures { IfOk result (λ s. s ≡ spec.symbol_sort sorts.now args.now entry.now) }
{
    if sorts.len() != entry.vars {
        return Ok(None);
    }
    let wanted = put_sorts(alloc, entry.args.as_slice(), sorts)?;
    if !are_sorts(args, wanted.as_slice()) {
        return Ok(None);
    }
    match &entry.result {
        None => Ok(None),
        Some(found) => Ok(Some(put_sort(alloc, found, sorts)?)),
    }
}

/// Whether the arguments' sorts fit a predicate at these sorts.
pub fn predicate_fits(
    alloc: Global,
    sorts: &[Sort],
    args: &[Sort],
    entry: &SymbolEntry,
) -> Result<bool, AllocError>
    ensures { IfOk result (λ b. b ≡ spec.predicate_fits sorts.now args.now entry.now) }
{
    match &entry.result {
        Some(_) => Ok(false),
        None => {
            if sorts.len() != entry.vars {
                return Ok(false);
            }
            let wanted = put_sorts(alloc, entry.args.as_slice(), sorts)?;
            Ok(are_sorts(args, wanted.as_slice()))
        }
    }
}

/// The sorts of a record's fields at these sorts.
pub fn fields_sorts(
    alloc: Global,
    fields: &[FieldEntry],
    sorts: &[Sort],
) -> Result<List<Sort>, AllocError>
    ensures { IfOk result (λ s. s ≡ map (λ f. putting.put_sort sorts.now f.sort) fields.now) }
{
    let mut copies = List::new(alloc);
    for field in fields {
        copies.push(put_sort(alloc, &field.sort, sorts)?)?;
    }
    Ok(copies)
}

/// The type with these sorts as its arguments.
pub fn named_sort(alloc: Global, head: usize, sorts: &[Sort]) -> Result<Sort, AllocError>
    ensures { IfOk result (λ s. s ≡ Named head sorts.now) }
{
    let args = copy_sorts(alloc, sorts)?;
    Ok(Sort::Named { head, args })
}

/// The sort of a written record, where the arguments' sorts fit.
pub fn record_sort(
    alloc: Global,
    head: usize,
    sorts: &[Sort],
    args: &[Sort],
    entry: &TypeEntry,
) -> Result<Option<Sort>, AllocError>
    ensures { IfOk result (λ s. s ≡ spec.record_sort head sorts.now args.now entry.now) }
{
    match &entry.kind {
        Kind::Abstract => Ok(None),
        Kind::Choices(_) => Ok(None),
        Kind::Fields(fields) => {
            if sorts.len() != entry.arity {
                return Ok(None);
            }
            let wanted = fields_sorts(alloc, fields.as_slice(), sorts)?;
            if !are_sorts(args, wanted.as_slice()) {
                return Ok(None);
            }
            Ok(Some(named_sort(alloc, head, sorts)?))
        }
    }
}

/// Whether the only argument is the record itself.
pub fn owner_fits(
    alloc: Global,
    head: usize,
    sorts: &[Sort],
    args: &[Sort],
) -> Result<bool, AllocError>
    ensures { IfOk result (λ b. b ≡ spec.same_sorts args.now (Named head sorts.now ∷ [])) }
{
    let mut wanted = List::new(alloc);
    wanted.push(named_sort(alloc, head, sorts)?)?;
    Ok(are_sorts(args, wanted.as_slice()))
}

/// The sort of the field at this place.
pub fn field_at(
    alloc: Global,
    fields: &[FieldEntry],
    place: usize,
    sorts: &[Sort],
) -> Result<Option<Sort>, AllocError>
    ensures { IfOk result (λ s. s ≡ spec.field_at sorts.now fields.now place) }
{
    match at(fields, place) {
        None => Ok(None),
        Some(field) => Ok(Some(put_sort(alloc, &field.sort, sorts)?)),
    }
}

/// The sort of a field, where the argument's sort fits.
pub fn field_sort(
    alloc: Global,
    head: usize,
    place: usize,
    sorts: &[Sort],
    args: &[Sort],
    entry: &TypeEntry,
) -> Result<Option<Sort>, AllocError>
    ensures { IfOk result (λ s. s ≡ spec.field_sort head place sorts.now args.now entry.now) }
{
    match &entry.kind {
        Kind::Abstract => Ok(None),
        Kind::Choices(_) => Ok(None),
        Kind::Fields(fields) => {
            if sorts.len() != entry.arity {
                return Ok(None);
            }
            let fits = owner_fits(alloc, head, sorts, args)?;
            if !fits {
                return Ok(None);
            }
            field_at(alloc, fields.as_slice(), place, sorts)
        }
    }
}

/// The sorts that an operation takes on whole numbers.
pub fn int_operands(alloc: Global, op: Op) -> Result<List<Sort>, AllocError>
    ensures { IfOk result (λ s. s ≡ spec.operands op (Int ∷ [])) }
{
    let mut wanted = List::new(alloc);
    wanted.push(Sort::Int)?;
    if op != Op::Neg {
        wanted.push(Sort::Int)?;
    }
    Ok(wanted)
}

/// The sorts that an operation takes on `real`.
pub fn real_operands(alloc: Global, op: Op) -> Result<List<Sort>, AllocError>
    ensures { IfOk result (λ s. s ≡ spec.operands op (Real ∷ [])) }
{
    let mut wanted = List::new(alloc);
    wanted.push(Sort::Real)?;
    if op != Op::Neg {
        wanted.push(Sort::Real)?;
    }
    Ok(wanted)
}

/// Whether there is such an operation on `real`.
pub fn on_real(op: Op) -> bool
    ensures { result ≡ spec.on_real op }
{
    op != Op::Mod
}

/// The sort of what has no type variables, where the arguments are of the sorts that it takes.
fn plain_sort(sorts: &[Sort], args: &[Sort], wanted: &[Sort], sort: Sort) -> Option<Sort>
    ensures { result ≡ options.when (spec.same_sorts sorts.now [] && spec.same_sorts args.now wanted.now) sort }
{
    if are_sorts(sorts, &[]) && are_sorts(args, wanted) {
        Some(sort)
    } else {
        None
    }
}

/// The sort of an application, from the sorts of the arguments.
pub fn head_sort(
    alloc: Global,
    signature: &Signature,
    head: Head,
    sorts: &[Sort],
    args: &[Sort],
) -> Result<Option<Sort>, AllocError>
    ensures { IfOk result (λ s. s ≡ spec.head_sort signature.now head sorts.now args.now) }
{
    match head {
        Head::Symbol(n) => match signature.symbols.get(n) {
            None => Ok(None),
            Some(entry) => symbol_sort(alloc, sorts, args, entry),
        },
        Head::Build(n) => match signature.types.get(n) {
            None => Ok(None),
            Some(entry) => record_sort(alloc, n, sorts, args, entry),
        },
        Head::Field { of, place } => match signature.types.get(of) {
            None => Ok(None),
            Some(entry) => field_sort(alloc, of, place, sorts, args, entry),
        },
        Head::Int(op) => {
            let wanted = int_operands(alloc, op)?;
            Ok(plain_sort(sorts, args, wanted.as_slice(), Sort::Int))
        }
        Head::Real(op) => {
            let wanted = real_operands(alloc, op)?;
            if on_real(op) && are_sorts(sorts, &[]) && are_sorts(args, wanted.as_slice()) {
                Ok(Some(Sort::Real))
            } else {
                Ok(None)
            }
        }
        Head::True => Ok(plain_sort(sorts, args, &[], Sort::Bool)),
        Head::False => Ok(plain_sort(sorts, args, &[], Sort::Bool)),
        Head::Void => Ok(plain_sort(sorts, args, &[], Sort::Unit)),
    }
}

/// The sort of a term under variables of these sorts, where it is well sorted.
#[cycle(sort_in)]
#[tactic(auto, using(crate::proofs::SortLaws::sort_in_rules))]
pub fn sort_in(
    alloc: Global,
    signature: &Signature,
    term: &Term,
    env: &[Sort],
) -> Result<Option<Sort>, AllocError>
    ensures { IfOk result (λ s. s ≡ spec.sort_in signature.now (spec.is_closed_sort signature.now) env.now term.now) }
{
    match term {
        Term::Bound(distance) => variable_sort(alloc, env, *distance),
        Term::Num { top, bottom, real } => {
            if !numeral_ok(*top, *bottom, *real) {
                return Ok(None);
            }
            if *real {
                Ok(Some(Sort::Real))
            } else {
                Ok(Some(Sort::Int))
            }
        }
        Term::Fresh { sort, .. } => {
            if !is_closed_sort(signature, sort.get()) {
                return Ok(None);
            }
            Ok(Some(copy_sort(alloc, sort.get())?))
        }
        Term::Apply { head, sorts, args } => {
            if !are_closed_sorts(signature, sorts.as_slice()) {
                return Ok(None);
            }
            match sorts_in(alloc, signature, args.as_slice(), env)? {
                None => Ok(None),
                Some(found) => {
                    head_sort(alloc, signature, *head, sorts.as_slice(), found.as_slice())
                }
            }
        }
    }
}

/// The sorts of terms, where each of them is well sorted.
#[cycle(sort_in)]
#[tactic(auto, using(ae_base::proofs::Options::known_step, ae_base::proofs::Options::known_stop))]
pub fn sorts_in(
    alloc: Global,
    signature: &Signature,
    terms: &[Term],
    env: &[Sort],
) -> Result<Option<List<Sort>>, AllocError>
    ensures { IfOk result (λ s. s ≡ options.all_known (map (spec.sort_in signature.now (spec.is_closed_sort signature.now) env.now) terms.now)) }
{
    let mut found = List::new(alloc);
    for term in terms {
        match sort_in(alloc, signature, term, env)? {
            None => return Ok(None),
            Some(sort) => found.push(sort)?,
        }
    }
    Ok(Some(found))
}

/// The sort of a closed term, and none where it isn't well sorted.
pub fn sort_of(
    alloc: Global,
    signature: &Signature,
    term: &Term,
) -> Result<Option<Sort>, AllocError>
    ensures { IfOk result (λ s. s ≡ spec.sort_of signature.now term.now) }
{
    sort_in(alloc, signature, term, &[])
}

/// Whether two terms have one sort.
pub fn same_known(left: &Option<Sort>, right: &Option<Sort>) -> bool
    ensures { result ≡ spec.same_known left.now right.now }
{
    match (left, right) {
        (Some(a), Some(b)) => is_sort(a, b),
        _ => false,
    }
}

/// Whether a sort is numeric.
pub fn is_numeric(sort: &Sort) -> bool
    ensures { result ≡ spec.is_numeric sort.now }
{
    is_sort(sort, &Sort::Int) || is_sort(sort, &Sort::Real)
}

/// Whether two terms have one numeric sort.
pub fn same_numeric(left: &Option<Sort>, right: &Option<Sort>) -> bool
    ensures { result ≡ spec.same_numeric left.now right.now }
{
    match (left, right) {
        (Some(a), Some(b)) => is_sort(a, b) && is_numeric(a),
        _ => false,
    }
}

/// Whether a predicate's application is well sorted, from the sorts of its arguments.
pub fn predicate_ok(
    alloc: Global,
    signature: &Signature,
    symbol: usize,
    sorts: &[Sort],
    args: &Option<List<Sort>>,
) -> Result<bool, AllocError>
    ensures { IfOk result (λ b. b ≡ spec.predicate_ok signature.now (spec.is_closed_sort signature.now) symbol sorts.now args.now) }
{
    match args {
        None => Ok(false),
        Some(args) => {
            if !are_closed_sorts(signature, sorts) {
                return Ok(false);
            }
            match signature.symbols.get(symbol) {
                None => Ok(false),
                Some(entry) => predicate_fits(alloc, sorts, args.as_slice(), entry),
            }
        }
    }
}

/// Whether a term may stand in a trigger.
pub fn trigger_ok(
    alloc: Global,
    signature: &Signature,
    term: &Term,
    env: &[Sort],
) -> Result<bool, AllocError>
    ensures { IfOk result (λ b. b ≡ spec.trigger_ok signature.now (spec.is_closed_sort signature.now) env.now term.now) }
{
    if sort_in(alloc, signature, term, env)?.is_some() {
        return Ok(true);
    }
    match term {
        Term::Apply { head, sorts, args } => match head {
            Head::Symbol(symbol) => {
                let found = sorts_in(alloc, signature, args.as_slice(), env)?;
                predicate_ok(alloc, signature, *symbol, sorts.as_slice(), &found)
            }
            _ => Ok(false),
        },
        _ => Ok(false),
    }
}

/// Whether the terms of a trigger may stand there.
pub fn terms_ok(
    alloc: Global,
    signature: &Signature,
    terms: &[Term],
    env: &[Sort],
) -> Result<bool, AllocError>
    ensures { IfOk result (λ b. b ≡ list_all (spec.trigger_ok signature.now (spec.is_closed_sort signature.now) env.now) terms.now) }
{
    for term in terms {
        if !trigger_ok(alloc, signature, term, env)? {
            return Ok(false);
        }
    }
    Ok(true)
}

/// Whether the triggers of a block may stand there.
pub fn triggers_ok(
    alloc: Global,
    signature: &Signature,
    triggers: &[List<Term>],
    env: &[Sort],
) -> Result<bool, AllocError>
    ensures { IfOk result (λ b. b ≡ list_all (list_all (spec.trigger_ok signature.now (spec.is_closed_sort signature.now) env.now)) triggers.now) }
{
    for trigger in triggers {
        if !terms_ok(alloc, signature, trigger.as_slice(), env)? {
            return Ok(false);
        }
    }
    Ok(true)
}

/// The sorts of the variables with those of one more block behind them.
pub fn inner_sorts(alloc: Global, env: &[Sort], more: &[Sort]) -> Result<List<Sort>, AllocError>
    ensures { IfOk result (λ s. s ≡ env.now ++ more.now) }
{
    let mut inner = copy_sorts(alloc, env)?;
    inner.append(copy_sorts(alloc, more)?)?;
    Ok(inner)
}

/// Whether two terms are well sorted and have one sort under variables of these sorts.
fn have_one_sort(
    alloc: Global,
    signature: &Signature,
    left: &Term,
    right: &Term,
    env: &[Sort],
) -> Result<bool, AllocError>
    ensures { IfOk result (λ b. b ≡ spec.same_known (spec.sort_in signature.now (spec.is_closed_sort signature.now) env.now left.now)
        (spec.sort_in signature.now (spec.is_closed_sort signature.now) env.now right.now)) }
{
    let from = sort_in(alloc, signature, left, env)?;
    let to = sort_in(alloc, signature, right, env)?;
    Ok(same_known(&from, &to))
}

/// The same, where that sort is numeric.
fn have_one_numeric_sort(
    alloc: Global,
    signature: &Signature,
    left: &Term,
    right: &Term,
    env: &[Sort],
) -> Result<bool, AllocError>
    ensures { IfOk result (λ b. b ≡ spec.same_numeric (spec.sort_in signature.now (spec.is_closed_sort signature.now) env.now left.now)
        (spec.sort_in signature.now (spec.is_closed_sort signature.now) env.now right.now)) }
{
    let from = sort_in(alloc, signature, left, env)?;
    let to = sort_in(alloc, signature, right, env)?;
    Ok(same_numeric(&from, &to))
}

/// Whether a formula is well sorted under variables of these sorts.
#[cycle(formula_in)]
#[tactic(auto, using(crate::proofs::SortLaws::formula_in_rules))]
pub fn formula_in(
    alloc: Global,
    signature: &Signature,
    formula: &Formula,
    env: &[Sort],
) -> Result<bool, AllocError>
    ensures { IfOk result (λ b. b ≡ spec.formula_in signature.now (spec.is_closed_sort signature.now) env.now formula.now) }
{
    match formula {
        Formula::True => Ok(true),
        Formula::False => Ok(true),
        Formula::Eq { left, right } => have_one_sort(alloc, signature, left, right, env),
        Formula::Lt { left, right } => have_one_numeric_sort(alloc, signature, left, right, env),
        Formula::Le { left, right } => have_one_numeric_sort(alloc, signature, left, right, env),
        Formula::Pred {
            symbol,
            sorts,
            args,
        } => {
            let found = sorts_in(alloc, signature, args.as_slice(), env)?;
            predicate_ok(alloc, signature, *symbol, sorts.as_slice(), &found)
        }
        Formula::Not(part) => formula_in(alloc, signature, part.get(), env),
        Formula::And(left, right) => Ok(
            formula_in(alloc, signature, left.get(), env)?
                && formula_in(alloc, signature, right.get(), env)?,
        ),
        Formula::Or(left, right) => Ok(
            formula_in(alloc, signature, left.get(), env)?
                && formula_in(alloc, signature, right.get(), env)?,
        ),
        Formula::Xor(left, right) => Ok(
            formula_in(alloc, signature, left.get(), env)?
                && formula_in(alloc, signature, right.get(), env)?,
        ),
        Formula::Iff(left, right) => Ok(
            formula_in(alloc, signature, left.get(), env)?
                && formula_in(alloc, signature, right.get(), env)?,
        ),
        Formula::All(quant) => quant_in(alloc, signature, quant, env),
        Formula::Ex(quant) => quant_in(alloc, signature, quant, env),
    }
}

/// The same for a block.
#[cycle(formula_in)]
#[tactic(auto, using(crate::proofs::SortLaws::quant_in_block))]
pub fn quant_in(
    alloc: Global,
    signature: &Signature,
    quant: &Quant,
    env: &[Sort],
) -> Result<bool, AllocError>
    ensures { IfOk result (λ b. b ≡ spec.quant_in signature.now (spec.is_closed_sort signature.now) env.now quant.now) }
{
    if !are_closed_sorts(signature, quant.sorts.as_slice()) {
        return Ok(false);
    }
    let inner = inner_sorts(alloc, env, quant.sorts.as_slice())?;
    if !triggers_ok(
        alloc,
        signature,
        quant.triggers.as_slice(),
        inner.as_slice(),
    )? {
        return Ok(false);
    }
    formula_in(alloc, signature, quant.body.get(), inner.as_slice())
}

/// Whether a formula is closed and well sorted.
pub fn formula_ok(
    alloc: Global,
    signature: &Signature,
    formula: &Formula,
) -> Result<bool, AllocError>
    ensures { IfOk result (λ b. b ≡ spec.formula_ok signature.now formula.now) }
{
    formula_in(alloc, signature, formula, &[])
}
