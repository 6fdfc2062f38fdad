//! What an expression is before it is typed.

ghost use Rattle.std.specs.Prelude.{◌≡◌, List, IfOk, OnOk};
ghost use Rattle.ae_elab.specs.Environments.{class_in, meaning_in, entries, locals};
ghost use Rattle.ae_elab.specs.Expressions.{part_of};
ghost use Rattle.ae_expressions.specs.NamedParts.{AreNamed};
ghost use Rattle.ae_elab.specs.Names.{IsName};
ghost use Rattle.ae_elab.specs.Nodes.{Entry};
ghost use Rattle.ae_elab.specs.Scope as scope;
ghost use Rattle.ae_elab.specs.Scope.{scope_with, name_in, meaning_of, class_of_named};

use crate::meanings::{Named, stands_for};
use ae_elab::environment::{Class, Environment, Meaning};
use ae_elab::names::name_at;
use ae_elab::shapes::{Shape, shape_of};
use ae_elab::typings::Context;
use ae_syntax::exprs::{Expr, ExprKind};
use ae_syntax::spans::Span;
use std::alloc::AllocError;

// What an `if` is, from its branches.
fn join(first: Class, second: Class) -> Class
    ensures { class_in result ≡ scope.join (class_in first) (class_in second) }
{
    match first {
        Class::Formula => Class::Formula,
        Class::Term => match second {
            Class::Formula => Class::Formula,
            Class::Either => Class::Term,
            Class::Term => Class::Term,
        },
        Class::Either => second,
    }
}

// What a bound name stands for.
#[tactic(auto, using(crate::proofs::ClassLaws::untyped))]
fn class_of_meaning(meaning: &Meaning) -> Class
    ensures { (es : List Entry) → class_in result ≡ scope.class_of_meaning (meaning_in es meaning.now) }
{
    match meaning {
        Meaning::Variable { number: _, sort: _ } => Class::Term,
        Meaning::Term {
            class,
            tree: _,
            sort: _,
        } => *class,
        Meaning::Formula(_) => Class::Formula,
        Meaning::Untyped(class) => *class,
    }
}

// What a name stands for.
fn class_of_name<'a>(
    context: &Context<'a>,
    environment: &Environment<'a>,
    place: Span,
) -> Result<Class, AllocError>
    requires name { IsName context.now.text.now place }
    ensures { IfOk result (λ c. class_in c ≡ class_of_named (meaning_of (scope_with context.now.text.now context.now.known (locals environment.now)) (name_in context.now.text.now place))) }
{
    let found = stands_for(context, environment, place)?;
    match found {
        Named::Bound(meaning) => Ok(class_of_meaning(&meaning)),
        Named::Function(_) => Ok(Class::Term),
        Named::Predicate(_) => Ok(Class::Formula),
        Named::Unknown => Ok(Class::Term),
    }
}

/// What an expression is before it is typed. The bound names and the nodes are as they were.
#[tactic(auto, using(crate::proofs::ClassLaws::classes))]
pub fn class_of<'a>(
    context: &Context<'a>,
    environment: &mut Environment<'a>,
    expr: &Expr,
) -> Result<Class, AllocError>
    requires names { AreNamed context.now.text.now expr.now }
    ensures class { IfOk result (λ c. class_in c ≡ (part_of expr.now).class (scope_with context.now.text.now context.now.known (locals environment.old))) }
    ensures nodes { entries environment.new ≡ entries environment.old }
    ensures locals { OnOk result (locals environment.new ≡ locals environment.old) }
{
    match expr.kind.get() {
        ExprKind::Binary {
            op,
            left: _,
            right: _,
        } => match shape_of(*op) {
            Shape::Operation(_) => Ok(Class::Term),
            Shape::Equation(_) => Ok(Class::Formula),
            Shape::Inequality(_) => Ok(Class::Formula),
            Shape::Joined(_) => Ok(Class::Formula),
        },
        ExprKind::Not(_) => Ok(Class::Formula),
        ExprKind::Quantified {
            quantifier: _,
            groups: _,
            triggers: _,
            body: _,
        } => Ok(Class::Formula),
        ExprKind::Distinct(_) => Ok(Class::Formula),
        ExprKind::Let { name, value, body } => {
            let class = class_of(context, environment, value)?;
            environment.enter(name_at(context.text, *name), Meaning::Untyped(class))?;
            let found = class_of(context, environment, body)?;
            environment.leave();
            Ok(found)
        }
        ExprKind::If {
            condition: _,
            positive,
            negative,
        } => {
            let first = class_of(context, environment, positive)?;
            let second = class_of(context, environment, negative)?;
            Ok(join(first, second))
        }
        ExprKind::Apply { name, args: _ } => class_of_name(context, environment, *name),
        ExprKind::True => Ok(Class::Either),
        ExprKind::False => Ok(Class::Either),
        ExprKind::Bracketed(inner) => class_of(context, environment, inner),
        ExprKind::Negative(_) => Ok(Class::Term),
        ExprKind::Field { base: _, field: _ } => Ok(Class::Term),
        ExprKind::Numeral(_) => Ok(Class::Term),
        ExprKind::Void => Ok(Class::Term),
        ExprKind::Ascribed { body: _, sort: _ } => Ok(Class::Term),
        ExprKind::Record(_) => Ok(Class::Term),
        ExprKind::Update {
            base: _,
            settings: _,
        } => Ok(Class::Term),
    }
}
