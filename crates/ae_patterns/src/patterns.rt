//! What the value of a name is made of.
ghost use Rattle.std.specs.Prelude.{◌≡◌, ◌<◌, length, IfOk};
ghost use Rattle.ae_store.specs.Shapes.{shapes};
ghost use Rattle.ae_store.specs.Terms.{terms};
ghost use Rattle.ae_patterns.specs.Patterns.{IsPatternOf};
ghost use Rattle.ae_patterns.specs.Inner.Counts.{count_in};

use ae_core::lists::List;
use ae_core::problems::{Kind, Signature};
use ae_core::terms::{Head, Sort};
use ae_num::forms::Name;
use ae_store::store::Store;
use ae_strips::field_name;
use ae_value_table::Pattern;
use std::alloc::{AllocError, Global};

/// How many fields the records of a type have; `None` where it is no record type.
fn field_count(signature: &Signature, of: usize) -> Option<usize>
    ensures { result ≡ count_in signature.now of }
{
    match signature.types.as_slice().get(of) {
        None => None,
        Some(entry) => match &entry.kind {
            Kind::Abstract => None,
            Kind::Choices(_) => None,
            Kind::Fields(fields) => Some(fields.len()),
        },
    }
}

/// What the value of a name is made of: of the values of its fields, where it is of a record sort, and otherwise of its own number or its own leaf.
pub fn pattern(
    alloc: Global,
    signature: &Signature,
    store: &Store,
    name: Name,
) -> Result<Pattern, AllocError>
    requires same { signature.now ≡ store.now.signature }
    requires name { name < length store.now.nodes }
    ensures { IfOk result (λ pattern. IsPatternOf store.now.signature (terms (shapes store.now.nodes)) name pattern) }
{
    let _len = store.len();
    let node = store.node(name);
    match &node.sort {
        Sort::Int => Ok(Pattern::Number(name)),
        Sort::Real => Ok(Pattern::Number(name)),
        Sort::Var(_) => Ok(Pattern::Leaf(name)),
        Sort::Rigid(_) => Ok(Pattern::Leaf(name)),
        Sort::Bool => Ok(Pattern::Leaf(name)),
        Sort::Unit => Ok(Pattern::Leaf(name)),
        Sort::Named { head, args } => {
            let Some(count) = field_count(signature, *head) else {
                return Ok(Pattern::Leaf(name));
            };
            let mut fields = List::new(alloc);
            for place in 0..count {
                let field = Head::Field { of: *head, place };
                let part = field_name(store, field, args.as_slice(), name);
                let shape = pattern(alloc, signature, store, part)?;
                fields.push(shape)?;
            }
            Ok(Pattern::Fields { name, fields })
        }
    }
}
