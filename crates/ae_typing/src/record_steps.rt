//! What the typing of records does beside the typing of their values.

ghost use Rattle.std.specs.Prelude.{◌≡◌, [], List, None, Some, length, reverse, IfErr, IfOk, OnOk};
ghost use Rattle.std.specs.List.{list_any};
ghost use Rattle.std.specs.Prelude.{nat_eq};
ghost use Rattle.ae_core.specs.declared.terms.Sort as sort;
ghost use Rattle.ae_types.specs.Bound.{bound};
ghost use Rattle.ae_elab.specs.declared.faults.TypeFault.TheVariants as fault;
ghost use Rattle.ae_elab.specs.Conditions as condition;
ghost use Rattle.ae_elab.specs.Names.{IsName};
ghost use Rattle.ae_elab.specs.Nodes.{IsTree, AreTrees};
ghost use Rattle.ae_elab.specs.Scope.{name_in};
ghost use Rattle.ae_elab.specs.Scope as scope;
ghost use Rattle.ae_elab.specs.Steps.{IsMet, IsNotMet, AreHeld, AreFailed};
ghost use Rattle.ae_elab.specs.Terms as rules;
ghost use Rattle.ae_elab.specs.Trees.{Tree, Trees};
ghost use Rattle.ae_elab.specs.Typings.{TermAnswer, TypesTerm, nodes_of};
ghost use Rattle.ae_expressions.specs.FieldParts.{no_field, new_field, then_built, then_updated};

use ae_core::copies::copy_sorts;
use ae_core::lists::List;
use ae_core::terms::Sort;
use ae_elab::conditions::has_sort;
use ae_elab::faults::TypeFault;
use ae_elab::fields::FieldPlace;
use ae_elab::names::name_at;
use ae_elab::new_names::twice;
use ae_elab::nodes::Node;
use ae_elab::term_steps::push_node;
use ae_elab::typings::{Context, TypedTerm, Typing};
use ae_elab::written_types::unknown_name;
use ae_expressions::field_steps::count_fields;
use ae_syntax::spans::Span;
use ae_types::Bindings;
use std::alloc::{AllocError, Global};

/// The values of fields, in the order of the text: the fields' places, and the places of the values among the nodes.
#[derive(Drop)]
pub struct Values {
    pub places: List<usize>,
    pub trees: List<usize>,
}

/// The field whose name stands at a place of the text.
pub fn field_at<'a>(context: &Context<'a>, place: Span) -> Result<FieldPlace, TypeFault>
    requires name { IsName context.now.text.now place }
    ensures found { IfOk result (λ f. scope.field_place context.now.known (name_in context.now.text.now place) ≡ Some f) }
    ensures missing { IfErr result (λ e. scope.field_place context.now.known (name_in context.now.text.now place) ≡ None) }
    ensures fault { IfErr result (AreFailed (no_field context.now.text.now place)) }
{
    let name = name_at(context.text, place);
    match context.known.field_place(name) {
        Some(found) => Ok(found),
        None => Err(unknown_name(context.alloc, name, place)?),
    }
}

// The fault of a record at a place without one of its fields.
fn missing_field(place: Span) -> TypeFault
    ensures { result ≡ fault.MissingField place.from place.to }
{
    TypeFault::MissingField {
        from: place.from as usize,
        to: place.to as usize,
    }
}

// Whether a number is among these.
fn is_among(number: usize, numbers: &[usize]) -> bool
    ensures { result ≡ list_any (nat_eq number) numbers.now }
{
    for other in numbers {
        if number == *other {
            return true;
        }
    }
    false
}

/// A field, named at a place of the text, is one of the record type of number `of`, and none of those of the places
/// `got`; the record stands at the place `own`.
pub fn is_new<'a>(
    context: &Context<'a>,
    own: Span,
    of: usize,
    got: &[usize],
    found: FieldPlace,
    name: Span,
) -> Result<(), TypeFault>
    requires name { IsName context.now.text.now name }
    ensures met { OnOk result (AreHeld (new_field context.now.text.now own of (reverse got.now) found name)) }
    ensures fault { IfErr result (AreFailed (new_field context.now.text.now own of (reverse got.now) found name)) }
{
    if found.of != of {
        return Err(missing_field(own));
    }
    if is_among(found.place, got) {
        return Err(twice(context.alloc, name_at(context.text, name), name)?);
    }
    Ok(())
}

/// The part at a place of the text is a record of the type of number `of` with these parameters.
pub fn is_record(
    alloc: Global,
    bindings: &mut Bindings,
    place: Span,
    of: usize,
    sorts: &[Sort],
    found: &Sort,
) -> Result<(), TypeFault>
    ensures met { OnOk result (IsMet (condition.has_sort place (sort.Named of sorts.now) found.now) (bound bindings.old) (bound bindings.new)) }
    ensures fault { IfErr result (IsNotMet (condition.has_sort place (sort.Named of sorts.now) found.now) (bound bindings.old)) }
{
    let copies = copy_sorts(alloc, sorts)?;
    let wanted = Sort::Named {
        head: of,
        args: copies,
    };
    match has_sort(alloc, bindings, place, &wanted, found) {
        Ok(()) => Ok(()),
        Err(fault) => Err(fault),
    }
}

/// A record, at the place `own`, of the type of number `of`: all its fields have a value.
pub fn built<'a>(
    context: &Context<'a>,
    typing: &mut Typing<'a>,
    own: Span,
    of: usize,
    sorts: List<Sort>,
    values: Values,
) -> Result<TypedTerm, TypeFault>
    ensures { (us : Trees) → AreTrees (nodes_of typing.old) values.trees us
        → TermAnswer context.now (λ sc. then_built own of sorts sc (record { places = values.places; terms = us })) typing.old typing.new result }
{
    let count = count_fields(context.known.signature(), of);
    if values.places.len() != count {
        return Err(missing_field(own));
    }
    let args = copy_sorts(context.alloc, sorts.as_slice())?;
    let node = Node::Build {
        of,
        sorts,
        count,
        places: values.places,
        values: values.trees,
    };
    let tree = push_node(typing, node)?;
    Ok(TypedTerm {
        tree,
        sort: Sort::Named { head: of, args },
    })
}

/// A record of the type of number `of` with these fields changed; `base` is its place among the nodes.
pub fn updated<'a>(
    context: &Context<'a>,
    typing: &mut Typing<'a>,
    of: usize,
    sorts: List<Sort>,
    base: usize,
    values: Values,
) -> Result<TypedTerm, AllocError>
    ensures { IfOk result (λ t. (x : Tree) (us : Trees) → IsTree (nodes_of typing.old) base x → AreTrees (nodes_of typing.old) values.trees us
        → TypesTerm context.now (λ sc. then_updated of sorts sc x (record { places = values.places; terms = us })) typing.old typing.new t) }
{
    let count = count_fields(context.known.signature(), of);
    let args = copy_sorts(context.alloc, sorts.as_slice())?;
    let node = Node::Update {
        of,
        sorts,
        count,
        base,
        places: values.places,
        values: values.trees,
    };
    let tree = push_node(typing, node)?;
    Ok(TypedTerm {
        tree,
        sort: Sort::Named { head: of, args },
    })
}
