//! Typing of expressions. Terms and formulas go through each other, down the tree.

ghost use Rattle.std.specs.Prelude.{◌≡◌, [], length, map, slice_get, Some};
ghost use Rattle.std.specs.List.{AllByRecursion};
ghost use Rattle.ae_core.specs.declared.problems.SymbolEntry as symbol;
ghost use Rattle.ae_core.specs.declared.terms.Sort as sort;
ghost use Rattle.ae_elab.specs.AfterParts.{negation_rule};
ghost use Rattle.ae_elab.specs.Environments.{class_in};
ghost use Rattle.ae_elab.specs.Expressions.{part_of, binary_part, let_part, name_part, set_of, trigger_of};
ghost use Rattle.ae_elab.specs.Formulas as formulas;
ghost use Rattle.ae_expressions.specs.Inner.Bindings.{BindsAnswer};
ghost use Rattle.ae_expression_typing.specs.Inner.OperandsAnswers.{OperandsAnswer, AppliedAnswer};
ghost use Rattle.ae_expression_typing.specs.Inner.PatternsAnswers.{PatternsAnswer};
ghost use Rattle.ae_expression_typing.specs.Inner.ValuesAnswers.{ValuesAnswer};
ghost use Rattle.ae_expressions.specs.NamedParts.{AreNamed, AreSetNamed, AreTriggerNamed, AreGroupNamed};
ghost use Rattle.ae_elab.specs.Names.{IsName, names_in_type};
ghost use Rattle.ae_elab.specs.Nodes.{relation_of, join_of};
ghost use Rattle.ae_elab.specs.Rules as rule;
ghost use Rattle.ae_elab.specs.Scope as scope;
ghost use Rattle.ae_elab.specs.Terms as terms;
ghost use Rattle.ae_elab.specs.Typings.{TermAnswer, TreeAnswer, TreesAnswer, ClaimAnswer, around_in, scope_at};
ghost use Rattle.ae_syntax.specs.declared.spans.Span as span;

use ae_core::lists::List;
use ae_core::putting::put_sorts;
use ae_core::terms::{Head, Op, Sort};
use ae_elab::arithmetic::may_be;
use ae_elab::conditions::has_sort;
use ae_elab::environment::{Class, Meaning};
use ae_elab::faults::TypeFault;
use ae_elab::formula_steps::holds;
use ae_elab::names::name_at;
use ae_elab::nodes::{Connective, Node, Pattern, Relation};
use ae_elab::numbers::Numbers;
use ae_elab::operands::settle;
use ae_elab::shapes::{Shape, numbers_of, shape_of};
use ae_elab::term_steps::{
    Operands, ascribed, constant, negated, numeral, operation, push_node, unknowns,
};
use ae_elab::typings::{Around, Context, TypedTerm, Typing};
use ae_elab::written_types::unknown_name;
use ae_expressions::blocks::{enter_block, leave_block, variables};
use ae_expressions::classes::class_of;
use ae_expressions::field_steps::{arity_at, field_sort, selected};
use ae_expressions::in_terms::in_term;
use ae_expressions::let_steps::{enter, leave};
use ae_expressions::meanings::{Named, bound_formula, bound_term, stands_for, wrong_count};
use ae_expressions::symbol_steps::{Applied, function_term};
use ae_syntax::exprs::{BinaryOp, Expr, ExprKind, Group, Quantifier, Setting, Trigger};
use ae_syntax::spans::Span;
use ae_syntax::types::WrittenType;
use ae_typing::patterns::{
    around_body, as_pattern, first_place, is_covering, is_trigger_term, merged_variables,
    variable_numbers, variable_sorts,
};
use ae_typing::record_steps::{Values, built, field_at, is_new, is_record, updated};

/// An expression in a term's place; `place` is the whole part's, with the brackets round it.
#[cycle(expression)]
pub fn term_at<'a>(
    context: &Context<'a>,
    typing: &mut Typing<'a>,
    place: Span,
    expr: &Expr,
) -> Result<TypedTerm, TypeFault>
    requires names { AreNamed context.now.text.now expr.now }
    ensures { TermAnswer context.now (λ sc. (part_of expr.now).term sc place) typing.old typing.new result }
{
    match expr.kind.get() {
        ExprKind::Binary { op, left, right } => {
            binary_term(context, typing, place, *op, left, right)
        }
        ExprKind::Not(inner) => in_term(place, negation(context, typing, inner)),
        ExprKind::Negative(inner) => opposite(context, typing, inner),
        ExprKind::If {
            condition,
            positive,
            negative,
        } => choice(context, typing, condition, positive, negative),
        ExprKind::Numeral(number) => Ok(numeral(typing, *number.get())?),
        ExprKind::True => Ok(constant(context.alloc, typing, Head::True, Sort::Bool)?),
        ExprKind::False => Ok(constant(context.alloc, typing, Head::False, Sort::Bool)?),
        ExprKind::Void => Ok(constant(context.alloc, typing, Head::Void, Sort::Unit)?),
        ExprKind::Bracketed(inner) => term_at(context, typing, place, inner),
        ExprKind::Ascribed { body, sort } => with_sort(context, typing, body, sort.get()),
        ExprKind::Field { base, field } => field_of(context, typing, base, *field),
        ExprKind::Apply { name, args } => {
            name_term(context, typing, place, *name, args.as_slice())
        }
        ExprKind::Distinct(exprs) => in_term(place, different(context, typing, exprs.as_slice())),
        ExprKind::Let { name, value, body } => let_term(context, typing, *name, value, body),
        ExprKind::Quantified {
            quantifier,
            groups,
            triggers,
            body,
        } => {
            let groups = groups.get().as_slice();
            let triggers = triggers.get().as_slice();
            in_term(
                place,
                block(context, typing, &None, *quantifier, groups, triggers, body),
            )
        }
        ExprKind::Record(settings) => record_at(context, typing, expr.span, settings.as_slice()),
        ExprKind::Update { base, settings } => {
            update_at(context, typing, expr.span, base, settings.as_slice())
        }
    }
}

/// An expression in a term's place.
#[cycle(expression)]
pub fn term_of<'a>(
    context: &Context<'a>,
    typing: &mut Typing<'a>,
    expr: &Expr,
) -> Result<TypedTerm, TypeFault>
    requires names { AreNamed context.now.text.now expr.now }
    ensures { TermAnswer context.now (λ sc. rule.as_term sc (part_of expr.now)) typing.old typing.new result }
{
    term_at(context, typing, expr.span, expr)
}

// The opposite number of an expression.
#[cycle(expression)]
fn opposite<'a>(
    context: &Context<'a>,
    typing: &mut Typing<'a>,
    inner: &Expr,
) -> Result<TypedTerm, TypeFault>
    requires names { AreNamed context.now.text.now inner.now }
    ensures { TermAnswer context.now (λ sc. terms.negative_rule (part_of inner.now) sc) typing.old typing.new result }
{
    let found = term_of(context, typing, inner)?;
    negated(context.alloc, typing, inner.span, found)
}

// An expression with its sort.
#[cycle(expression)]
fn with_sort<'a>(
    context: &Context<'a>,
    typing: &mut Typing<'a>,
    body: &Expr,
    sort: &WrittenType,
) -> Result<TypedTerm, TypeFault>
    requires names { AreNamed context.now.text.now body.now }
    requires sort { AllByRecursion (IsName context.now.text.now) (names_in_type sort.now) }
    ensures { TermAnswer context.now (λ sc. terms.ascribed_rule (part_of body.now) sort.now sc) typing.old typing.new result }
{
    let found = term_of(context, typing, body)?;
    ascribed(context, typing, body.span, found, sort)
}

// A field of a record.
#[cycle(expression)]
fn field_of<'a>(
    context: &Context<'a>,
    typing: &mut Typing<'a>,
    base: &Expr,
    field: Span,
) -> Result<TypedTerm, TypeFault>
    requires base { AreNamed context.now.text.now base.now }
    requires field { IsName context.now.text.now field }
    ensures { TermAnswer context.now (λ sc. terms.field_rule (part_of base.now) field sc) typing.old typing.new result }
{
    let found = term_of(context, typing, base)?;
    selected(context, typing, base.span, found, field)
}

// A name with its arguments, in a term's place.
#[cycle(expression)]
fn name_term<'a>(
    context: &Context<'a>,
    typing: &mut Typing<'a>,
    place: Span,
    name: Span,
    args: &[Expr],
) -> Result<TypedTerm, TypeFault>
    requires name { IsName context.now.text.now name }
    requires args { AllByRecursion (AreNamed context.now.text.now) args.now }
    ensures { (own : span.Span) → TermAnswer context.now (λ sc. (name_part own name (map part_of args.now)).term sc place) typing.old typing.new result }
{
    match stands_for(context, &typing.environment, name)? {
        Named::Bound(meaning) => {
            bound_term(context.alloc, typing, place, name, args.len(), meaning)
        }
        Named::Function(number) => function(context, typing, name, number, args),
        Named::Predicate(number) => {
            in_term(place, predicate(context, typing, name, number, args))
        }
        Named::Unknown => Err(unknown_name(context.alloc, name_at(context.text, name), name)?),
    }
}

// A name with its arguments, in a formula's place; `around` is the block of which it is the body.
#[cycle(expression)]
fn name_formula<'a>(
    context: &Context<'a>,
    typing: &mut Typing<'a>,
    around: &Option<Around>,
    place: Span,
    name: Span,
    args: &[Expr],
) -> Result<usize, TypeFault>
    requires name { IsName context.now.text.now name }
    requires args { AllByRecursion (AreNamed context.now.text.now) args.now }
    ensures { (own : span.Span) → ClaimAnswer context.now (λ sc. (name_part own name (map part_of args.now)).formula sc (around_in around.now) place) typing.old typing.new result }
{
    match stands_for(context, &typing.environment, name)? {
        Named::Bound(meaning) => {
            bound_formula(
                context.alloc,
                typing,
                around,
                place,
                name,
                args.len(),
                meaning,
            )
        }
        Named::Function(number) => {
            let found = function(context, typing, name, number, args)?;
            holds(typing, place, found)
        }
        Named::Predicate(number) => predicate(context, typing, name, number, args),
        Named::Unknown => Err(unknown_name(context.alloc, name_at(context.text, name), name)?),
    }
}

// A function with its arguments.
#[cycle(expression)]
fn function<'a>(
    context: &Context<'a>,
    typing: &mut Typing<'a>,
    name: Span,
    number: usize,
    args: &[Expr],
) -> Result<TypedTerm, TypeFault>
    requires args { AllByRecursion (AreNamed context.now.text.now) args.now }
    ensures { (e : symbol.SymbolEntry) (s : sort.Sort) → slice_get context.now.known.symbols number ≡ Some e → e.result ≡ Some s
        → TermAnswer context.now (λ sc. terms.function_rule name number e s (map part_of args.now) sc) typing.old typing.new result }
{
    let applied = application(context, typing, name, number, args)?;
    Ok(function_term(context, typing, number, applied)?)
}

// A predicate with its arguments.
#[cycle(expression)]
fn predicate<'a>(
    context: &Context<'a>,
    typing: &mut Typing<'a>,
    name: Span,
    number: usize,
    args: &[Expr],
) -> Result<usize, TypeFault>
    requires args { AllByRecursion (AreNamed context.now.text.now) args.now }
    ensures { (e : symbol.SymbolEntry) → slice_get context.now.known.symbols number ≡ Some e
        → ClaimAnswer context.now (λ sc. formulas.predicate_rule name number e (map part_of args.now) sc) typing.old typing.new result }
{
    let applied = application(context, typing, name, number, args)?;
    let node = Node::Predicate {
        symbol: number,
        sorts: applied.sorts,
        args: applied.args,
    };
    Ok(push_node(typing, node)?)
}

// The arguments of a symbol, and the sorts put for its type variables.
#[cycle(expression)]
fn application<'a>(
    context: &Context<'a>,
    typing: &mut Typing<'a>,
    name: Span,
    number: usize,
    args: &[Expr],
) -> Result<Applied, TypeFault>
    requires args { AllByRecursion (AreNamed context.now.text.now) args.now }
    ensures { (e : symbol.SymbolEntry) → slice_get context.now.known.symbols number ≡ Some e
        → AppliedAnswer context.now (λ sc. terms.application_rule name e (map part_of args.now) sc) typing.old typing.new result }
{
    let Some(entry) = context.known.signature().symbols.get(number) else {
        return Err(wrong_count(name));
    };
    if args.len() != entry.args.len() {
        return Err(wrong_count(name));
    }
    let sorts = unknowns(context.alloc, &mut typing.passing, entry.vars)?;
    let wanted = put_sorts(context.alloc, entry.args.as_slice(), sorts.as_slice())?;
    let trees = all_wanted(context, typing, wanted.as_slice(), args)?;
    Ok(Applied { sorts, args: trees })
}

// Expressions in terms' places, of these sorts.
#[cycle(expression)]
fn all_wanted<'a>(
    context: &Context<'a>,
    typing: &mut Typing<'a>,
    sorts: &[Sort],
    exprs: &[Expr],
) -> Result<List<usize>, TypeFault>
    requires count { length sorts.now ≡ length exprs.now }
    requires names { AllByRecursion (AreNamed context.now.text.now) exprs.now }
    ensures { TreesAnswer context.now (λ sc. rule.all_wanted sc sorts.now (map part_of exprs.now)) typing.old typing.new result }
{
    let mut trees = List::new(context.alloc);
    for place in 0..exprs.len() {
        let tree = wanted_at(context, typing, &sorts[place], &exprs[place])?;
        trees.push(tree)?;
    }
    Ok(trees)
}

// An operator between two expressions, in a term's place.
#[cycle(expression)]
fn binary_term<'a>(
    context: &Context<'a>,
    typing: &mut Typing<'a>,
    place: Span,
    op: BinaryOp,
    left: &Expr,
    right: &Expr,
) -> Result<TypedTerm, TypeFault>
    requires left { AreNamed context.now.text.now left.now }
    requires right { AreNamed context.now.text.now right.now }
    ensures { (own : span.Span) → TermAnswer context.now (λ sc. (binary_part op own (part_of left.now) (part_of right.now)).term sc place) typing.old typing.new result }
{
    match shape_of(op) {
        Shape::Operation(op) => calculated(context, typing, op, left, right),
        Shape::Equation(relation) => {
            in_term(place, equation(context, typing, relation, left, right))
        }
        Shape::Inequality(relation) => {
            in_term(place, inequality(context, typing, relation, left, right))
        }
        Shape::Joined(connective) => {
            in_term(place, connected(context, typing, connective, left, right))
        }
    }
}

// An operation of arithmetic.
#[cycle(expression)]
fn calculated<'a>(
    context: &Context<'a>,
    typing: &mut Typing<'a>,
    op: Op,
    left: &Expr,
    right: &Expr,
) -> Result<TypedTerm, TypeFault>
    requires left { AreNamed context.now.text.now left.now }
    requires right { AreNamed context.now.text.now right.now }
    ensures { TermAnswer context.now (λ sc. terms.operation_rule op (part_of left.now) (part_of right.now) sc) typing.old typing.new result }
{
    let found = operands(context, typing, numbers_of(op), left, right)?;
    Ok(operation(context.alloc, typing, op, found)?)
}

// Two operands of one numeric sort.
#[cycle(expression)]
fn operands<'a>(
    context: &Context<'a>,
    typing: &mut Typing<'a>,
    numbers: Numbers,
    left: &Expr,
    right: &Expr,
) -> Result<Operands, TypeFault>
    requires left { AreNamed context.now.text.now left.now }
    requires right { AreNamed context.now.text.now right.now }
    ensures { OperandsAnswer context.now (λ sc. terms.operands sc numbers (part_of left.now) (part_of right.now)) typing.old typing.new result }
{
    let first = term_of(context, typing, left)?;
    may_be(
        context.alloc,
        &typing.bindings,
        left.span,
        numbers,
        &first.sort,
    )?;
    let second = term_of(context, typing, right)?;
    settle(
        context.alloc,
        &mut typing.bindings,
        left.span,
        right.span,
        numbers,
        &first.sort,
        &second.sort,
    )?;
    Ok(Operands {
        first: first.tree,
        second: second.tree,
        sort: first.sort,
    })
}

/// An expression in a term's place, of this sort.
#[cycle(expression)]
pub fn wanted_at<'a>(
    context: &Context<'a>,
    typing: &mut Typing<'a>,
    sort: &Sort,
    expr: &Expr,
) -> Result<usize, TypeFault>
    requires names { AreNamed context.now.text.now expr.now }
    ensures { TreeAnswer context.now (λ sc. rule.wanted sc sort.now (part_of expr.now)) typing.old typing.new result }
{
    let found = term_of(context, typing, expr)?;
    has_sort(
        context.alloc,
        &mut typing.bindings,
        expr.span,
        sort,
        &found.sort,
    )?;
    Ok(found.tree)
}

// `if` between terms.
#[cycle(expression)]
fn choice<'a>(
    context: &Context<'a>,
    typing: &mut Typing<'a>,
    condition: &Expr,
    positive: &Expr,
    negative: &Expr,
) -> Result<TypedTerm, TypeFault>
    requires condition { AreNamed context.now.text.now condition.now }
    requires positive { AreNamed context.now.text.now positive.now }
    requires negative { AreNamed context.now.text.now negative.now }
    ensures { TermAnswer context.now (λ sc. terms.choice_rule (part_of condition.now) (part_of positive.now) (part_of negative.now) sc) typing.old typing.new result }
{
    let claim = formula_of(context, typing, condition)?;
    let first = term_of(context, typing, positive)?;
    let second = wanted_at(context, typing, &first.sort, negative)?;
    let node = Node::Choice {
        condition: claim,
        positive: first.tree,
        negative: second,
    };
    let tree = push_node(typing, node)?;
    Ok(TypedTerm {
        tree,
        sort: first.sort,
    })
}

/// An expression in a formula's place; `place` is the whole part's, with the brackets round it, and `around` the block of
/// which it is the body.
#[cycle(expression)]
pub fn formula_at<'a>(
    context: &Context<'a>,
    typing: &mut Typing<'a>,
    around: &Option<Around>,
    place: Span,
    expr: &Expr,
) -> Result<usize, TypeFault>
    requires names { AreNamed context.now.text.now expr.now }
    ensures { ClaimAnswer context.now (λ sc. (part_of expr.now).formula sc (around_in around.now) place) typing.old typing.new result }
{
    match expr.kind.get() {
        ExprKind::Binary { op, left, right } => match shape_of(*op) {
            Shape::Operation(_) => truth(context, typing, place, expr),
            Shape::Equation(relation) => equation(context, typing, relation, left, right),
            Shape::Inequality(relation) => inequality(context, typing, relation, left, right),
            Shape::Joined(connective) => connected(context, typing, connective, left, right),
        },
        ExprKind::Not(inner) => negation(context, typing, inner),
        ExprKind::If {
            condition,
            positive,
            negative,
        } => conditional(context, typing, condition, positive, negative),
        ExprKind::True => Ok(push_node(typing, Node::Truth)?),
        ExprKind::False => Ok(push_node(typing, Node::Falsity)?),
        ExprKind::Bracketed(inner) => formula_at(context, typing, around, place, inner),
        ExprKind::Negative(_) => truth(context, typing, place, expr),
        ExprKind::Numeral(_) => truth(context, typing, place, expr),
        ExprKind::Void => truth(context, typing, place, expr),
        ExprKind::Ascribed { body: _, sort: _ } => truth(context, typing, place, expr),
        ExprKind::Field { base: _, field: _ } => truth(context, typing, place, expr),
        ExprKind::Record(_) => truth(context, typing, place, expr),
        ExprKind::Update {
            base: _,
            settings: _,
        } => truth(context, typing, place, expr),
        ExprKind::Distinct(exprs) => different(context, typing, exprs.as_slice()),
        ExprKind::Let { name, value, body } => {
            let_formula(context, typing, around, *name, value, body)
        }
        ExprKind::Apply { name, args } => {
            name_formula(context, typing, around, place, *name, args.as_slice())
        }
        ExprKind::Quantified {
            quantifier,
            groups,
            triggers,
            body,
        } => {
            let groups = groups.get().as_slice();
            let triggers = triggers.get().as_slice();
            block(context, typing, around, *quantifier, groups, triggers, body)
        }
    }
}

/// An expression in a formula's place that is no block's body.
#[cycle(expression)]
pub fn formula_of<'a>(
    context: &Context<'a>,
    typing: &mut Typing<'a>,
    expr: &Expr,
) -> Result<usize, TypeFault>
    requires names { AreNamed context.now.text.now expr.now }
    ensures { ClaimAnswer context.now (λ sc. rule.as_formula sc (part_of expr.now)) typing.old typing.new result }
{
    formula_at(context, typing, &None, expr.span, expr)
}

// A term in a formula's place.
#[cycle(expression)]
fn truth<'a>(
    context: &Context<'a>,
    typing: &mut Typing<'a>,
    place: Span,
    expr: &Expr,
) -> Result<usize, TypeFault>
    requires names { AreNamed context.now.text.now expr.now }
    ensures { ClaimAnswer context.now (λ sc. formulas.truth_rule place ((part_of expr.now).term sc place)) typing.old typing.new result }
{
    let found = term_at(context, typing, place, expr)?;
    holds(typing, place, found)
}

// A relation of two terms of one sort.
#[cycle(expression)]
fn equation<'a>(
    context: &Context<'a>,
    typing: &mut Typing<'a>,
    relation: Relation,
    left: &Expr,
    right: &Expr,
) -> Result<usize, TypeFault>
    requires left { AreNamed context.now.text.now left.now }
    requires right { AreNamed context.now.text.now right.now }
    ensures { ClaimAnswer context.now (λ sc. formulas.equation_rule (relation_of relation) (part_of left.now) (part_of right.now) sc) typing.old typing.new result }
{
    let first = term_of(context, typing, left)?;
    let second = wanted_at(context, typing, &first.sort, right)?;
    let node = Node::Relation {
        relation,
        left: first.tree,
        right: second,
    };
    Ok(push_node(typing, node)?)
}

// A relation of two numbers.
#[cycle(expression)]
fn inequality<'a>(
    context: &Context<'a>,
    typing: &mut Typing<'a>,
    relation: Relation,
    left: &Expr,
    right: &Expr,
) -> Result<usize, TypeFault>
    requires left { AreNamed context.now.text.now left.now }
    requires right { AreNamed context.now.text.now right.now }
    ensures { ClaimAnswer context.now (λ sc. formulas.inequality_rule (relation_of relation) (part_of left.now) (part_of right.now) sc) typing.old typing.new result }
{
    let found = operands(context, typing, Numbers::IntOrReal, left, right)?;
    let node = Node::Relation {
        relation,
        left: found.first,
        right: found.second,
    };
    Ok(push_node(typing, node)?)
}

// Two formulas joined.
#[cycle(expression)]
fn connected<'a>(
    context: &Context<'a>,
    typing: &mut Typing<'a>,
    connective: Connective,
    left: &Expr,
    right: &Expr,
) -> Result<usize, TypeFault>
    requires left { AreNamed context.now.text.now left.now }
    requires right { AreNamed context.now.text.now right.now }
    ensures { ClaimAnswer context.now (λ sc. formulas.connective_rule (join_of connective) (part_of left.now) (part_of right.now) sc) typing.old typing.new result }
{
    let first = formula_of(context, typing, left)?;
    let second = formula_of(context, typing, right)?;
    let node = Node::Joined {
        connective,
        left: first,
        right: second,
    };
    Ok(push_node(typing, node)?)
}

// `not` before a formula.
#[cycle(expression)]
fn negation<'a>(
    context: &Context<'a>,
    typing: &mut Typing<'a>,
    inner: &Expr,
) -> Result<usize, TypeFault>
    requires names { AreNamed context.now.text.now inner.now }
    ensures { ClaimAnswer context.now (λ sc. negation_rule (part_of inner.now) sc) typing.old typing.new result }
{
    let claim = formula_of(context, typing, inner)?;
    Ok(push_node(typing, Node::Negation(claim))?)
}

// `if` between formulas.
#[cycle(expression)]
fn conditional<'a>(
    context: &Context<'a>,
    typing: &mut Typing<'a>,
    condition: &Expr,
    positive: &Expr,
    negative: &Expr,
) -> Result<usize, TypeFault>
    requires condition { AreNamed context.now.text.now condition.now }
    requires positive { AreNamed context.now.text.now positive.now }
    requires negative { AreNamed context.now.text.now negative.now }
    ensures { ClaimAnswer context.now (λ sc. formulas.conditional_rule (part_of condition.now) (part_of positive.now) (part_of negative.now) sc) typing.old typing.new result }
{
    let claim = formula_of(context, typing, condition)?;
    let first = formula_of(context, typing, positive)?;
    let second = formula_of(context, typing, negative)?;
    let node = Node::Conditional {
        condition: claim,
        positive: first,
        negative: second,
    };
    Ok(push_node(typing, node)?)
}

// Terms of one sort, each of them different from the others.
#[cycle(expression)]
fn different<'a>(
    context: &Context<'a>,
    typing: &mut Typing<'a>,
    exprs: &[Expr],
) -> Result<usize, TypeFault>
    requires names { AllByRecursion (AreNamed context.now.text.now) exprs.now }
    ensures { ClaimAnswer context.now (λ sc. formulas.distinct_rule (map part_of exprs.now) sc) typing.old typing.new result }
{
    let mut trees = List::new(context.alloc);
    let Some((first, others)) = exprs.split_first() else {
        return Ok(push_node(typing, Node::Distinct(trees))?);
    };
    let found = term_of(context, typing, first)?;
    trees.push(found.tree)?;
    for other in others {
        let tree = wanted_at(context, typing, &found.sort, other)?;
        trees.push(tree)?;
    }
    Ok(push_node(typing, Node::Distinct(trees))?)
}

// The value of a `let`, whose name is bound then.
#[cycle(expression)]
fn bind<'a>(
    context: &Context<'a>,
    typing: &mut Typing<'a>,
    name: Span,
    value: &Expr,
) -> Result<(), TypeFault>
    requires name { IsName context.now.text.now name }
    requires value { AreNamed context.now.text.now value.now }
    ensures { BindsAnswer context.now name (part_of value.now) typing.old typing.new result }
{
    match class_of(context, &mut typing.environment, value)? {
        Class::Formula => bind_formula(context, typing, name, value),
        Class::Either => bind_term(context, typing, name, Class::Either, value),
        Class::Term => bind_term(context, typing, name, Class::Term, value),
    }
}

// The value of a `let` that is a formula.
#[cycle(expression)]
fn bind_formula<'a>(
    context: &Context<'a>,
    typing: &mut Typing<'a>,
    name: Span,
    value: &Expr,
) -> Result<(), TypeFault>
    requires name { IsName context.now.text.now name }
    requires value { AreNamed context.now.text.now value.now }
    ensures { (part_of value.now).class (scope_at context.now typing.old) ≡ scope.formula → BindsAnswer context.now name (part_of value.now) typing.old typing.new result }
{
    let claim = formula_of(context, typing, value)?;
    enter(context, typing, name, Meaning::Formula(claim))?;
    Ok(())
}

// The value of a `let` that is a term, of this class.
#[cycle(expression)]
fn bind_term<'a>(
    context: &Context<'a>,
    typing: &mut Typing<'a>,
    name: Span,
    class: Class,
    value: &Expr,
) -> Result<(), TypeFault>
    requires name { IsName context.now.text.now name }
    requires value { AreNamed context.now.text.now value.now }
    ensures { (part_of value.now).class (scope_at context.now typing.old) ≡ class_in class → (class_in class ≡ scope.formula → ⊥) → BindsAnswer context.now name (part_of value.now) typing.old typing.new result }
{
    let found = term_of(context, typing, value)?;
    let meaning = Meaning::Term {
        class,
        tree: found.tree,
        sort: found.sort,
    };
    enter(context, typing, name, meaning)?;
    Ok(())
}

// `let` in a term's place.
#[cycle(expression)]
fn let_term<'a>(
    context: &Context<'a>,
    typing: &mut Typing<'a>,
    name: Span,
    value: &Expr,
    body: &Expr,
) -> Result<TypedTerm, TypeFault>
    requires name { IsName context.now.text.now name }
    requires value { AreNamed context.now.text.now value.now }
    requires body { AreNamed context.now.text.now body.now }
    ensures { (own place : span.Span) → TermAnswer context.now (λ sc. (let_part own name (part_of value.now) (part_of body.now)).term sc place) typing.old typing.new result }
{
    bind(context, typing, name, value)?;
    let found = term_of(context, typing, body)?;
    leave(typing);
    Ok(found)
}

// `let` in a formula's place; `around` is the block of which it is the body.
#[cycle(expression)]
fn let_formula<'a>(
    context: &Context<'a>,
    typing: &mut Typing<'a>,
    around: &Option<Around>,
    name: Span,
    value: &Expr,
    body: &Expr,
) -> Result<usize, TypeFault>
    requires name { IsName context.now.text.now name }
    requires value { AreNamed context.now.text.now value.now }
    requires body { AreNamed context.now.text.now body.now }
    ensures { (own place : span.Span) → ClaimAnswer context.now (λ sc. (let_part own name (part_of value.now) (part_of body.now)).formula sc (around_in around.now) place) typing.old typing.new result }
{
    bind(context, typing, name, value)?;
    let claim = formula_at(context, typing, around, body.span, body)?;
    leave(typing);
    Ok(claim)
}

// Values of fields of the record type of number `of`, which has these parameters; the record stands at the place `own`.
#[cycle(expression)]
fn all_values<'a>(
    context: &Context<'a>,
    typing: &mut Typing<'a>,
    own: Span,
    of: usize,
    sorts: &[Sort],
    settings: &[Setting],
) -> Result<Values, TypeFault>
    requires names { AllByRecursion (AreSetNamed context.now.text.now) settings.now }
    ensures { ValuesAnswer context.now (λ sc. terms.values_rule own of sorts.now [] (map set_of settings.now) sc) typing.old typing.new result }
{
    let mut places = List::new(context.alloc);
    let mut trees = List::new(context.alloc);
    for setting in settings {
        let found = field_at(context, setting.name)?;
        is_new(context, own, of, places.as_slice(), found, setting.name)?;
        let sort = field_sort(context.alloc, context.known.signature(), found, sorts)?;
        let tree = wanted_at(context, typing, &sort, &setting.value)?;
        places.push(found.place)?;
        trees.push(tree)?;
    }
    Ok(Values { places, trees })
}

// A record at the place `own`.
#[cycle(expression)]
fn record_at<'a>(
    context: &Context<'a>,
    typing: &mut Typing<'a>,
    own: Span,
    settings: &[Setting],
) -> Result<TypedTerm, TypeFault>
    requires names { AllByRecursion (AreSetNamed context.now.text.now) settings.now }
    ensures { TermAnswer context.now (λ sc. terms.record_rule own (map set_of settings.now) sc) typing.old typing.new result }
{
    let Some((first, _others)) = settings.split_first() else {
        return Ok(constant(context.alloc, typing, Head::Void, Sort::Unit)?);
    };
    let of = field_at(context, first.name)?.of;
    let count = arity_at(context.known.signature(), of);
    let sorts = unknowns(context.alloc, &mut typing.passing, count)?;
    let values = all_values(context, typing, own, of, sorts.as_slice(), settings)?;
    built(context, typing, own, of, sorts, values)
}

// A record at the place `own`, some fields of another one changed.
#[cycle(expression)]
fn update_at<'a>(
    context: &Context<'a>,
    typing: &mut Typing<'a>,
    own: Span,
    base: &Expr,
    settings: &[Setting],
) -> Result<TypedTerm, TypeFault>
    requires base { AreNamed context.now.text.now base.now }
    requires names { AllByRecursion (AreSetNamed context.now.text.now) settings.now }
    ensures { TermAnswer context.now (λ sc. terms.update_rule own (part_of base.now) (map set_of settings.now) sc) typing.old typing.new result }
{
    let old = term_of(context, typing, base)?;
    let Some((first, _others)) = settings.split_first() else {
        return Ok(constant(context.alloc, typing, Head::Void, Sort::Unit)?);
    };
    let of = field_at(context, first.name)?.of;
    let count = arity_at(context.known.signature(), of);
    let sorts = unknowns(context.alloc, &mut typing.passing, count)?;
    is_record(
        context.alloc,
        &mut typing.bindings,
        base.span,
        of,
        sorts.as_slice(),
        &old.sort,
    )?;
    let values = all_values(context, typing, own, of, sorts.as_slice(), settings)?;
    Ok(updated(context, typing, of, sorts, old.tree, values)?)
}

// A term of a trigger.
#[cycle(expression)]
fn pattern_at<'a>(
    context: &Context<'a>,
    typing: &mut Typing<'a>,
    expr: &Expr,
) -> Result<usize, TypeFault>
    requires names { AreNamed context.now.text.now expr.now }
    ensures { TreeAnswer context.now (λ sc. formulas.pattern_rule sc (part_of expr.now)) typing.old typing.new result }
{
    let tree = untested_at(context, typing, expr)?;
    is_trigger_term(context.alloc, typing.environment.nodes(), expr.span, tree)?;
    Ok(tree)
}

// A term of a trigger, of which nothing is looked at yet; a predicate's application stands for a term.
#[cycle(expression)]
fn untested_at<'a>(
    context: &Context<'a>,
    typing: &mut Typing<'a>,
    expr: &Expr,
) -> Result<usize, TypeFault>
    requires names { AreNamed context.now.text.now expr.now }
    ensures { TreeAnswer context.now (λ sc. formulas.untested ((part_of expr.now).class sc) (part_of expr.now) sc) typing.old typing.new result }
{
    match class_of(context, &mut typing.environment, expr)? {
        Class::Formula => {
            let claim = formula_of(context, typing, expr)?;
            Ok(as_pattern(context.alloc, typing, claim)?)
        }
        Class::Either => Ok(term_of(context, typing, expr)?.tree),
        Class::Term => Ok(term_of(context, typing, expr)?.tree),
    }
}

// The terms of a trigger.
#[cycle(expression)]
fn trigger_terms<'a>(
    context: &Context<'a>,
    typing: &mut Typing<'a>,
    exprs: &[Expr],
) -> Result<List<usize>, TypeFault>
    requires names { AllByRecursion (AreNamed context.now.text.now) exprs.now }
    ensures { TreesAnswer context.now (λ sc. formulas.patterns_rule sc (map part_of exprs.now)) typing.old typing.new result }
{
    let mut trees = List::new(context.alloc);
    for expr in exprs {
        let tree = pattern_at(context, typing, expr)?;
        trees.push(tree)?;
    }
    Ok(trees)
}

// Triggers, each with all these variables.
#[cycle(expression)]
fn all_triggers<'a>(
    context: &Context<'a>,
    typing: &mut Typing<'a>,
    variables: &[usize],
    triggers: &[Trigger],
) -> Result<List<Pattern>, TypeFault>
    requires names { AllByRecursion (AreTriggerNamed context.now.text.now) triggers.now }
    ensures { PatternsAnswer context.now (λ sc. formulas.triggers_rule variables.now (map trigger_of triggers.now) sc) typing.old typing.new result }
{
    let mut patterns = List::new(context.alloc);
    for trigger in triggers {
        let exprs = trigger.terms.as_slice();
        let terms = trigger_terms(context, typing, exprs)?;
        let place = first_place(exprs);
        let nodes = typing.environment.nodes();
        is_covering(context.alloc, variables, nodes, place, terms.as_slice())?;
        patterns.push(Pattern { place, terms })?;
    }
    Ok(patterns)
}

// A block; `around` is the block of which it is the body.
#[cycle(expression)]
fn block<'a>(
    context: &Context<'a>,
    typing: &mut Typing<'a>,
    around: &Option<Around>,
    quantifier: Quantifier,
    groups: &[Group],
    triggers: &[Trigger],
    body: &Expr,
) -> Result<usize, TypeFault>
    requires groups { AllByRecursion (AreGroupNamed context.now.text.now) groups.now }
    requires triggers { AllByRecursion (AreTriggerNamed context.now.text.now) triggers.now }
    requires body { AreNamed context.now.text.now body.now }
    ensures { ClaimAnswer context.now (λ sc. formulas.block_rule quantifier groups.now (map trigger_of triggers.now) (part_of body.now) sc (around_in around.now)) typing.old typing.new result }
{
    let bounds = variables(context, &mut typing.passing, groups)?;
    enter_block(context, &mut typing.environment, bounds.as_slice())?;
    let own = variable_numbers(context.alloc, bounds.as_slice())?;
    let merged = merged_variables(context.alloc, quantifier, around, own.as_slice())?;
    let patterns = all_triggers(context, typing, merged.as_slice(), triggers)?;
    let inner = around_body(quantifier, merged, triggers.len());
    let claim = formula_at(context, typing, &inner, body.span, body)?;
    leave_block(&mut typing.environment, bounds.len());
    let node = Node::Quantified {
        quantifier,
        variables: own,
        sorts: variable_sorts(context.alloc, bounds.as_slice())?,
        triggers: patterns,
        body: claim,
    };
    Ok(push_node(typing, node)?)
}
