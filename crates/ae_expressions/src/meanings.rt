//! What names stand for, and the typing of a bound name.

ghost use Rattle.std.specs.Prelude.{◌≡◌, List, length, IfOk};
ghost use Rattle.ae_elab.specs.declared.faults.TypeFault.TheVariants as fault;
ghost use Rattle.ae_elab.specs.declared.typings.Context as declared;
ghost use Rattle.ae_elab.specs.Environments.{IsMeaning, class_in, entries, locals, meaning_in};
ghost use Rattle.ae_expressions.specs.Named.{IsNamed};
ghost use Rattle.ae_elab.specs.Expressions.{name_term, name_formula};
ghost use Rattle.ae_elab.specs.Names.{IsName};
ghost use Rattle.ae_elab.specs.Formulas.{truth_rule};
ghost use Rattle.ae_elab.specs.Nodes.{Entry, IsClaim, claim_at};
ghost use Rattle.ae_elab.specs.Rules.{Part};
ghost use Rattle.ae_elab.specs.Scope.{scope_with, name_in, meaning_of, of_class, bound, a_formula, symbol_from};
ghost use Rattle.ae_elab.specs.Trees.{falsity};
ghost use Rattle.ae_elab.specs.Typings.{TermAnswer, ClaimAnswer, around_in, nodes_of};
ghost use Rattle.ae_syntax.specs.declared.spans.Span as span;

use crate::in_terms::prop_in_term;
use crate::merging::merge_into;
use ae_core::terms::{Head, Sort};
use ae_elab::environment::{Class, Environment, Meaning};
use ae_elab::faults::TypeFault;
use ae_elab::formula_steps::holds;
use ae_elab::known::Known;
use ae_elab::names::name_at;
use ae_elab::nodes::Node;
use ae_elab::term_steps::{constant, push_node};
use ae_elab::typings::{Around, Context, TypedTerm, Typing};
use ae_syntax::spans::Span;
use std::alloc::{AllocError, Global};

/// What a name stands for at a place of a text.
#[derive(Drop)]
pub enum Named {
    /// A bound name.
    Bound(Meaning),
    /// A declared constant or function, by its number.
    Function(usize),
    /// A declared predicate, by its number.
    Predicate(usize),
    Unknown,
}

// What a name stands for outside the bound ones.
fn named_symbol<'a>(known: &Known<'a>, name: &'a str) -> Named
    ensures { (es : List Entry) → IsNamed es known.now (symbol_from 0 known.now.symbols name.now) result }
{
    match known.symbol_number(name) {
        Some(number) => match known.signature().symbols.get(number) {
            Some(entry) => match &entry.result {
                Some(_) => Named::Function(number),
                None => Named::Predicate(number),
            },
            None => Named::Unknown,
        },
        None => Named::Unknown,
    }
}

/// What a name stands for.
pub fn stands_for<'a>(
    context: &Context<'a>,
    environment: &Environment<'a>,
    place: Span,
) -> Result<Named, AllocError>
    requires name { IsName context.now.text.now place }
    ensures { IfOk result (IsNamed (entries environment.now) context.now.known (meaning_of (scope_with context.now.text.now context.now.known (locals environment.now)) (name_in context.now.text.now place))) }
{
    let name = name_at(context.text, place);
    match environment.look_up(context.alloc, name)? {
        Some(meaning) => Ok(Named::Bound(meaning)),
        None => Ok(named_symbol(&context.known, name)),
    }
}

/// The fault of a symbol or a bound name at a place with another number of arguments.
pub fn wrong_count(place: Span) -> TypeFault
    ensures { result ≡ fault.Arity place.from place.to }
{
    TypeFault::Arity {
        from: place.from as usize,
        to: place.to as usize,
    }
}

// A `let` name of which only the class is looked at, in a term's place.
fn untyped_term<'a>(
    alloc: Global,
    typing: &mut Typing<'a>,
    place: Span,
    class: Class,
) -> Result<TypedTerm, TypeFault>
    ensures { (c : declared.Context) (name : span.Span) (args : List Part) → length args ≡ 0 → TermAnswer c (λ sc. name_term name args sc place (bound (of_class (class_in class)))) typing.old typing.new result }
{
    match class {
        Class::Formula => Err(prop_in_term(place)),
        Class::Either => Ok(constant(alloc, typing, Head::Void, Sort::Unit)?),
        Class::Term => Ok(constant(alloc, typing, Head::Void, Sort::Unit)?),
    }
}

/// A bound name in a term's place; `count` is the number of its arguments.
pub fn bound_term<'a>(
    alloc: Global,
    typing: &mut Typing<'a>,
    place: Span,
    name: Span,
    count: usize,
    meaning: Meaning,
) -> Result<TypedTerm, TypeFault>
    requires stands { IsMeaning (nodes_of typing.old) meaning }
    ensures { (c : declared.Context) (args : List Part) → length args ≡ count → TermAnswer c (λ sc. name_term name args sc place (bound (meaning_in (nodes_of typing.old) meaning))) typing.old typing.new result }
{
    if count != 0 {
        return Err(wrong_count(name));
    }
    match meaning {
        Meaning::Variable { number, sort } => {
            let tree = push_node(typing, Node::Variable(number))?;
            Ok(TypedTerm { tree, sort })
        }
        Meaning::Term {
            class: _,
            tree,
            sort,
        } => Ok(TypedTerm { tree, sort }),
        Meaning::Formula(_) => Err(prop_in_term(place)),
        Meaning::Untyped(class) => untyped_term(alloc, typing, place, class),
    }
}

// A bound name that stands for a term, in a formula's place; `count` is the number of its arguments.
fn term_as_formula<'a>(
    alloc: Global,
    typing: &mut Typing<'a>,
    place: Span,
    name: Span,
    count: usize,
    meaning: Meaning,
) -> Result<usize, TypeFault>
    requires stands { IsMeaning (nodes_of typing.old) meaning }
    ensures { (c : declared.Context) (args : List Part) → length args ≡ count → ClaimAnswer c (λ sc. truth_rule place (name_term name args sc place (bound (meaning_in (nodes_of typing.old) meaning)))) typing.old typing.new result }
{
    let found = bound_term(alloc, typing, place, name, count, meaning)?;
    holds(typing, place, found)
}

// A `let` name that stands for a formula, at a place among the nodes, in a formula's place.
fn named_claim<'a>(
    alloc: Global,
    typing: &mut Typing<'a>,
    around: &Option<Around>,
    name: Span,
    count: usize,
    claim: usize,
) -> Result<usize, TypeFault>
    requires stands { IsClaim (nodes_of typing.old) claim (claim_at (nodes_of typing.old) claim) }
    ensures { (c : declared.Context) (args : List Part) (place : span.Span) → length args ≡ count → ClaimAnswer c (λ sc. name_formula name args sc (around_in around.now) place (bound (a_formula (claim_at (nodes_of typing.old) claim)))) typing.old typing.new result }
{
    if count != 0 {
        return Err(wrong_count(name));
    }
    match merge_into(alloc, around, typing.environment.nodes(), claim) {
        Ok(()) => Ok(claim),
        Err(fault) => Err(fault),
    }
}

// A `let` name of which only the class is looked at, a formula, in a formula's place.
fn untyped_claim<'a>(
    typing: &mut Typing<'a>,
    around: &Option<Around>,
    name: Span,
    count: usize,
) -> Result<usize, TypeFault>
    ensures { (c : declared.Context) (args : List Part) (place : span.Span) → length args ≡ count → ClaimAnswer c (λ sc. name_formula name args sc (around_in around.now) place (bound (a_formula falsity))) typing.old typing.new result }
{
    if count != 0 {
        return Err(wrong_count(name));
    }
    Ok(push_node(typing, Node::Falsity)?)
}

// A `let` name of which only the class is looked at, in a formula's place.
fn untyped_formula<'a>(
    alloc: Global,
    typing: &mut Typing<'a>,
    around: &Option<Around>,
    place: Span,
    name: Span,
    count: usize,
    class: Class,
) -> Result<usize, TypeFault>
    ensures { (c : declared.Context) (args : List Part) → length args ≡ count → ClaimAnswer c (λ sc. name_formula name args sc (around_in around.now) place (bound (of_class (class_in class)))) typing.old typing.new result }
{
    match class {
        Class::Formula => untyped_claim(typing, around, name, count),
        Class::Either => {
            term_as_formula(
                alloc,
                typing,
                place,
                name,
                count,
                Meaning::Untyped(Class::Either),
            )
        }
        Class::Term => {
            term_as_formula(
                alloc,
                typing,
                place,
                name,
                count,
                Meaning::Untyped(Class::Term),
            )
        }
    }
}

/// A bound name in a formula's place; `count` is the number of its arguments, and `around` the block of which it is the
/// body.
pub fn bound_formula<'a>(
    alloc: Global,
    typing: &mut Typing<'a>,
    around: &Option<Around>,
    place: Span,
    name: Span,
    count: usize,
    meaning: Meaning,
) -> Result<usize, TypeFault>
    requires stands { IsMeaning (nodes_of typing.old) meaning }
    ensures { (c : declared.Context) (args : List Part) → length args ≡ count → ClaimAnswer c (λ sc. name_formula name args sc (around_in around.now) place (bound (meaning_in (nodes_of typing.old) meaning))) typing.old typing.new result }
{
    match meaning {
        Meaning::Formula(claim) => named_claim(alloc, typing, around, name, count, claim),
        Meaning::Untyped(class) => {
            untyped_formula(alloc, typing, around, place, name, count, class)
        }
        Meaning::Variable { number, sort } => {
            term_as_formula(
                alloc,
                typing,
                place,
                name,
                count,
                Meaning::Variable { number, sort },
            )
        }
        Meaning::Term { class, tree, sort } => {
            term_as_formula(
                alloc,
                typing,
                place,
                name,
                count,
                Meaning::Term { class, tree, sort },
            )
        }
    }
}
