//! Fields of record types: what is declared of them, and the typing of a field once its record is typed.

ghost use Rattle.std.specs.Prelude.{◌≡◌, length, IfOk};
ghost use Rattle.ae_expressions.specs.FieldParts.{then_field};
ghost use Rattle.ae_elab.specs.Names.{IsName};
ghost use Rattle.ae_elab.specs.Nodes.{IsTree};
ghost use Rattle.ae_elab.specs.Rules.{typed};
ghost use Rattle.ae_elab.specs.Terms as rules;
ghost use Rattle.ae_elab.specs.Trees.{Tree};
ghost use Rattle.ae_elab.specs.Typings.{TermAnswer, nodes_of};

use ae_core::copies::copy_sorts;
use ae_core::lists::List;
use ae_core::problems::{Kind, Signature};
use ae_core::putting::put_sort;
use ae_core::terms::{Head, Sort};
use ae_elab::conditions::has_sort;
use ae_elab::faults::TypeFault;
use ae_elab::fields::FieldPlace;
use ae_elab::names::name_at;
use ae_elab::nodes::Node;
use ae_elab::term_steps::{push_node, unknowns};
use ae_elab::typings::{Context, TypedTerm, Typing};
use ae_elab::written_types::unknown_name;
use ae_syntax::spans::Span;
use std::alloc::{AllocError, Global};

/// How many parameters the type of a number has; none where there is no such type.
pub fn arity_at(signature: &Signature, number: usize) -> usize
    ensures { result ≡ rules.arity_at signature.now number }
{
    match signature.types.get(number) {
        Some(entry) => entry.arity,
        None => 0,
    }
}

/// How many fields the type of a number has.
pub fn count_fields(signature: &Signature, number: usize) -> usize
    ensures { result ≡ length (rules.fields_at signature.now number) }
{
    match signature.types.get(number) {
        Some(entry) => match &entry.kind {
            Kind::Fields(fields) => fields.len(),
            Kind::Abstract => 0,
            Kind::Choices(_) => 0,
        },
        None => 0,
    }
}

/// The sort of a field, with these sorts for the parameters of its type.
pub fn field_sort(
    alloc: Global,
    signature: &Signature,
    field: FieldPlace,
    sorts: &[Sort],
) -> Result<Sort, AllocError>
    ensures { IfOk result (λ s. s ≡ rules.field_sort signature.now field sorts.now) }
{
    match signature.types.get(field.of) {
        Some(entry) => match &entry.kind {
            Kind::Fields(fields) => match fields.get(field.place) {
                Some(found) => put_sort(alloc, &found.sort, sorts),
                None => Ok(Sort::Unit),
            },
            Kind::Abstract => Ok(Sort::Unit),
            Kind::Choices(_) => Ok(Sort::Unit),
        },
        None => Ok(Sort::Unit),
    }
}

/// A field of the record at a place of the text.
pub fn selected<'a>(
    context: &Context<'a>,
    typing: &mut Typing<'a>,
    place: Span,
    inner: TypedTerm,
    field: Span,
) -> Result<TypedTerm, TypeFault>
    requires name { IsName context.now.text.now field }
    ensures { (x : Tree) → IsTree (nodes_of typing.old) inner.tree x
        → TermAnswer context.now (λ sc. then_field place field sc (typed x inner.sort)) typing.old typing.new result }
{
    let name = name_at(context.text, field);
    let Some(found) = context.known.field_place(name) else {
        return Err(unknown_name(context.alloc, name, field)?);
    };
    let signature = context.known.signature();
    let count = arity_at(signature, found.of);
    let sorts = unknowns(context.alloc, &mut typing.passing, count)?;
    let copies = copy_sorts(context.alloc, sorts.as_slice())?;
    let wanted = Sort::Named {
        head: found.of,
        args: copies,
    };
    has_sort(
        context.alloc,
        &mut typing.bindings,
        place,
        &wanted,
        &inner.sort,
    )?;
    let sort = field_sort(context.alloc, signature, found, sorts.as_slice())?;
    let mut args = List::new(context.alloc);
    args.push(inner.tree)?;
    let node = Node::Apply {
        head: Head::Field {
            of: found.of,
            place: found.place,
        },
        sorts,
        args,
    };
    let tree = push_node(typing, node)?;
    Ok(TypedTerm { tree, sort })
}
