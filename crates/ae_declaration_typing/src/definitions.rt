//! Definitions of functions and predicates.

ghost use Rattle.std.specs.Prelude.{◌≡◌, [], map, Some, OnOk};
ghost use Rattle.std.specs.List.{AllByRecursion};
ghost use Rattle.ae_declaration_typing.specs.Definitions.{with_defined};
ghost use Rattle.ae_declaration_typing.specs.Drafts.{DraftAnswer};
ghost use Rattle.ae_declaration_typing.specs.Inner.Rests.{function_rest, predicate_rest};
ghost use Rattle.ae_elab.specs.Declarations as rule;
ghost use Rattle.ae_elab.specs.Expressions.{part_of};
ghost use Rattle.ae_elab.specs.Formulas.{with_block};
ghost use Rattle.ae_elab.specs.Names.{IsName, names_in_type, names_in_typed};
ghost use Rattle.ae_elab.specs.Rules.{as_formula, wanted};
ghost use Rattle.ae_elab.specs.Typings.{ClaimAnswer, TreeAnswer, bound_in, locals_of};
ghost use Rattle.ae_expressions.specs.NamedParts.{AreNamed};

use crate::defining::{function_claim, predicate_claim};
use crate::drafts::Draft;
use crate::formals::formals_of;
use ae_core::copies::copy_sort;
use ae_core::problems::Nature;
use ae_core::terms::Sort;
use ae_elab::declarations::symbol_entry;
use ae_elab::faults::TypeFault;
use ae_elab::grounds::Ground;
use ae_elab::known::Known;
use ae_elab::names::name_at;
use ae_elab::new_names::new_symbol;
use ae_elab::typings::{Bound, Context, Typing};
use ae_elab::written_types::sort_of;
use ae_expression_typing::expressions::{formula_of, wanted_at};
use ae_expressions::blocks::{enter_block, leave_block};
use ae_syntax::decls::TypedName;
use ae_syntax::exprs::Expr;
use ae_syntax::spans::Span;
use ae_syntax::types::WrittenType;
use ae_typing::patterns::variable_sorts;
use std::alloc::{AllocError, Global};

// Declares a defined symbol, with so many type variables: its formal parameters, and the sort of its value.
fn declare<'a>(
    alloc: Global,
    text: &'a [u8],
    known: &mut Known<'a>,
    name: Span,
    vars: usize,
    bounds: &[Bound],
    value: &Option<Sort>,
) -> Result<(), AllocError>
    requires name { IsName text.now name }
    ensures { OnOk result (known.new ≡ with_defined text.now known.old name vars (map (bound_in text.now) bounds.now) value.now) }
{
    let sorts = variable_sorts(alloc, bounds)?;
    let own = name_at(text, name);
    let entry = symbol_entry(alloc, own, vars, sorts.as_slice(), value, Nature::Free)?;
    known.push_symbol(own, entry)?;
    Ok(())
}

// Declares a defined function.
fn declare_function<'a>(
    alloc: Global,
    text: &'a [u8],
    known: &mut Known<'a>,
    name: Span,
    vars: usize,
    bounds: &[Bound],
    sort: &Sort,
) -> Result<(), AllocError>
    requires name { IsName text.now name }
    ensures { OnOk result (known.new ≡ with_defined text.now known.old name vars (map (bound_in text.now) bounds.now) (Some sort.now)) }
{
    let value = Some(copy_sort(alloc, sort)?);
    declare(alloc, text, known, name, vars, bounds, &value)?;
    Ok(())
}

// The body of a function, under its formal parameters.
fn value_under<'a>(
    context: &Context<'a>,
    typing: &mut Typing<'a>,
    bounds: &[Bound],
    sort: &Sort,
    body: &Expr,
) -> Result<usize, TypeFault>
    requires bounds { AllByRecursion (λ b. IsName context.now.text.now b.name) bounds.now }
    requires names { AreNamed context.now.text.now body.now }
    ensures { TreeAnswer context.now (λ sc. wanted (with_block (map (bound_in context.now.text.now) bounds.now) sc) sort.now (part_of body.now)) typing.old typing.new result }
{
    enter_block(context, &mut typing.environment, bounds)?;
    let tree = wanted_at(context, typing, sort, body)?;
    leave_block(&mut typing.environment, bounds.len());
    Ok(tree)
}

// The body of a predicate, under its formal parameters.
fn formula_under<'a>(
    context: &Context<'a>,
    typing: &mut Typing<'a>,
    bounds: &[Bound],
    body: &Expr,
) -> Result<usize, TypeFault>
    requires bounds { AllByRecursion (λ b. IsName context.now.text.now b.name) bounds.now }
    requires names { AreNamed context.now.text.now body.now }
    ensures { ClaimAnswer context.now (λ sc. as_formula (with_block (map (bound_in context.now.text.now) bounds.now) sc) (part_of body.now)) typing.old typing.new result }
{
    enter_block(context, &mut typing.environment, bounds)?;
    let claim = formula_of(context, typing, body)?;
    leave_block(&mut typing.environment, bounds.len());
    Ok(claim)
}

// A function, once its formal parameters and the sort of its value are known.
fn define_function<'a>(
    context: &mut Context<'a>,
    typing: &mut Typing<'a>,
    place: Span,
    name: Span,
    bounds: &[Bound],
    sort: &Sort,
    body: &Expr,
) -> Result<Draft, TypeFault>
    requires locals { locals_of typing.old ≡ [] }
    requires name { IsName context.old.text.now name }
    requires bounds { AllByRecursion (λ b. IsName context.old.text.now b.name) bounds.now }
    requires body { AreNamed context.old.text.now body.now }
    ensures text { context.new.text.now ≡ context.old.text.now }
    ensures draft { DraftAnswer context.old.text.now (function_rest context.old.text.now context.old.known place name body.now (map (bound_in context.old.text.now) bounds.now) sort.now) context.new.known typing.old typing.new result }
{
    let vars = typing.passing.count_written();
    let symbol = context.known.signature().symbols.len();
    let alloc = context.alloc;
    declare_function(
        alloc,
        context.text,
        &mut context.known,
        name,
        vars,
        bounds,
        sort,
    )?;
    let tree = value_under(context, typing, bounds, sort, body)?;
    let environment = &mut typing.environment;
    let claim = function_claim(alloc, environment, bounds, name, symbol, vars, tree)?;
    Ok(Draft {
        place,
        is_goal: false,
        name,
        claim,
    })
}

// A predicate, once its formal parameters are known.
fn define_predicate<'a>(
    context: &mut Context<'a>,
    typing: &mut Typing<'a>,
    place: Span,
    name: Span,
    bounds: &[Bound],
    body: &Expr,
) -> Result<Draft, TypeFault>
    requires locals { locals_of typing.old ≡ [] }
    requires name { IsName context.old.text.now name }
    requires bounds { AllByRecursion (λ b. IsName context.old.text.now b.name) bounds.now }
    requires body { AreNamed context.old.text.now body.now }
    ensures text { context.new.text.now ≡ context.old.text.now }
    ensures draft { DraftAnswer context.old.text.now (predicate_rest context.old.text.now context.old.known place name body.now (map (bound_in context.old.text.now) bounds.now)) context.new.known typing.old typing.new result }
{
    let vars = typing.passing.count_written();
    let symbol = context.known.signature().symbols.len();
    let alloc = context.alloc;
    declare(
        alloc,
        context.text,
        &mut context.known,
        name,
        vars,
        bounds,
        &None,
    )?;
    let inner = formula_under(context, typing, bounds, body)?;
    let environment = &mut typing.environment;
    let claim = predicate_claim(alloc, environment, bounds, name, symbol, vars, inner)?;
    Ok(Draft {
        place,
        is_goal: false,
        name,
        claim,
    })
}

/// A function's definition: its name is new, then its formal parameters, the sort of its value, and its body, in which it is
/// declared itself.
pub fn function<'a>(
    context: &mut Context<'a>,
    typing: &mut Typing<'a>,
    place: Span,
    name: Span,
    formals: &[TypedName],
    value: &WrittenType,
    body: &Expr,
) -> Result<Draft, TypeFault>
    requires locals { locals_of typing.old ≡ [] }
    requires name { IsName context.old.text.now name }
    requires formals { AllByRecursion (λ x. AllByRecursion (IsName context.old.text.now) (names_in_typed x)) formals.now }
    requires value { AllByRecursion (IsName context.old.text.now) (names_in_type value.now) }
    requires body { AreNamed context.old.text.now body.now }
    ensures text { context.new.text.now ≡ context.old.text.now }
    ensures draft { DraftAnswer context.old.text.now (rule.function_decl context.old.text.now context.old.known place name formals.now value.now body.now) context.new.known typing.old typing.new result }
{
    new_symbol(context.alloc, context.text, &context.known, name)?;
    let bounds = formals_of(context, &mut typing.passing, formals)?;
    let sort = sort_of(
        context.alloc,
        context.text,
        &context.known,
        &Ground::Free,
        &mut typing.passing,
        value,
    )?;
    let own = bounds.as_slice();
    define_function(context, typing, place, name, own, &sort, body)
}

/// A predicate's definition: its name is new, then its formal parameters, and its body, in which it is declared itself.
pub fn predicate<'a>(
    context: &mut Context<'a>,
    typing: &mut Typing<'a>,
    place: Span,
    name: Span,
    formals: &[TypedName],
    body: &Expr,
) -> Result<Draft, TypeFault>
    requires locals { locals_of typing.old ≡ [] }
    requires name { IsName context.old.text.now name }
    requires formals { AllByRecursion (λ x. AllByRecursion (IsName context.old.text.now) (names_in_typed x)) formals.now }
    requires body { AreNamed context.old.text.now body.now }
    ensures text { context.new.text.now ≡ context.old.text.now }
    ensures draft { DraftAnswer context.old.text.now (rule.predicate_decl context.old.text.now context.old.known place name formals.now body.now) context.new.known typing.old typing.new result }
{
    new_symbol(context.alloc, context.text, &context.known, name)?;
    let bounds = formals_of(context, &mut typing.passing, formals)?;
    let own = bounds.as_slice();
    define_predicate(context, typing, place, name, own, body)
}
