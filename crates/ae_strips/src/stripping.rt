//! What a name comes down to.
ghost use Rattle.std.specs.Prelude.{◌≡◌, ◌<◌, length, IfOk};
ghost use Rattle.ae_store.specs.Growing.{IsFront};
ghost use Rattle.ae_store.specs.Shapes.{shapes};
ghost use Rattle.ae_store.specs.Terms.{terms};
ghost use Rattle.ae_just.specs.Steps.{Fits};
ghost use Rattle.ae_strips.specs.Stripping.{StripsTo, IsEquating, IsSaidBy, IsStripped};
ghost use Rattle.ae_strips.specs.Inner.FieldNodes.{IsFieldNode};
ghost use Rattle.ae_strips.specs.Inner.Saying.{IsSameField};

use crate::fields::{FieldAt, argument, field_at, field_name};
use crate::saying::{said_through, state_argument, state_moved};
use ae_core::terms::Head;
use ae_just::justs::Justs;
use ae_num::forms::Name;
use ae_store::store::Store;
use std::alloc::{AllocError, Global};

/// What a name comes down to, and the number of the step that equates the two. Where there is no step the two are one.
#[derive(Clone, Copy)]
pub struct Stripped {
    pub name: Name,
    pub step: Option<usize>,
}

/// The same field of what its record comes down to, which a step equates with the record.
fn moved_by(
    alloc: Global,
    store: &Store,
    justs: &mut Justs,
    name: Name,
    field: FieldAt,
    owner: Name,
    step: usize,
) -> Result<Stripped, AllocError>
    requires fits { Fits store.now.signature (terms (shapes store.now.nodes)) justs.old }
    requires field { IsFieldNode store.now.nodes name field }
    requires equal { IsEquating justs.old field.owner owner step }
    requires within { owner < length store.now.nodes }
    ensures same { IfOk result (λ moved. IsSameField store.now.nodes name field.of field.place owner moved.name) }
    ensures said { IfOk result (λ moved. IsStripped justs.new name moved) }
    ensures front { IsFront justs.old justs.new }
    ensures fits { Fits store.now.signature (terms (shapes store.now.nodes)) justs.new }
{
    let _len = store.len();
    let head = Head::Field {
        of: field.of,
        place: field.place,
    };
    let node = store.node(name);
    let other = field_name(store, head, node.sorts.as_slice(), owner);
    let equal = state_moved(alloc, store, justs, name, other, step)?;
    Ok(Stripped {
        name: other,
        step: Some(equal),
    })
}

/// The same field of what its record comes down to.
fn moved(
    alloc: Global,
    store: &Store,
    justs: &mut Justs,
    name: Name,
    field: FieldAt,
    owner: Stripped,
) -> Result<Stripped, AllocError>
    requires fits { Fits store.now.signature (terms (shapes store.now.nodes)) justs.old }
    requires field { IsFieldNode store.now.nodes name field }
    requires owner { IsStripped justs.old field.owner owner }
    requires within { owner.name < length store.now.nodes }
    ensures same { IfOk result (λ moved. IsSameField store.now.nodes name field.of field.place owner.name moved.name) }
    ensures said { IfOk result (λ moved. IsStripped justs.new name moved) }
    ensures front { IsFront justs.old justs.new }
    ensures fits { Fits store.now.signature (terms (shapes store.now.nodes)) justs.new }
{
    match owner.step {
        None => Ok(Stripped { name, step: None }),
        Some(step) => moved_by(alloc, store, justs, name, field, owner.name, step),
    }
}

/// What stands in the place of a field of a written record comes down to this, with the step from a name that is equated with the field.
fn through(
    store: &Store,
    justs: &mut Justs,
    name: Name,
    field: Stripped,
    argument: Name,
    step: usize,
    end: Stripped,
) -> Result<Stripped, AllocError>
    requires fits { Fits store.now.signature (terms (shapes store.now.nodes)) justs.old }
    requires field { IsStripped justs.old name field }
    requires step { IsSaidBy justs.old field.name argument (Some step) }
    requires end { IsStripped justs.old argument end }
    ensures name { IfOk result (λ stripped. stripped.name ≡ end.name) }
    ensures said { IfOk result (λ stripped. IsStripped justs.new name stripped) }
    ensures front { IsFront justs.old justs.new }
    ensures fits { Fits store.now.signature (terms (shapes store.now.nodes)) justs.new }
{
    let first = said_through(
        store,
        justs,
        name,
        field.name,
        argument,
        field.step,
        Some(step),
    )?;
    let whole = said_through(store, justs, name, argument, end.name, first, end.step)?;
    Ok(Stripped {
        name: end.name,
        step: whole,
    })
}

/// What a name comes down to, and the step that says so: where the name is no field, it is the name itself.
pub fn strip(
    alloc: Global,
    store: &Store,
    justs: &mut Justs,
    name: Name,
) -> Result<Stripped, AllocError>
    requires fits { Fits store.now.signature (terms (shapes store.now.nodes)) justs.old }
    requires name { name < length store.now.nodes }
    ensures strips { IfOk result (λ stripped. StripsTo (terms (shapes store.now.nodes)) name stripped.name) }
    ensures said { IfOk result (λ stripped. IsStripped justs.new name stripped) }
    ensures front { IsFront justs.old justs.new }
    ensures fits { Fits store.now.signature (terms (shapes store.now.nodes)) justs.new }
{
    let _len = store.len();
    let Some(field) = field_at(store, name) else {
        return Ok(Stripped { name, step: None });
    };
    let owner = strip(alloc, store, justs, field.owner)?;
    let same = moved(alloc, store, justs, name, field, owner)?;
    let node = store.node(name);
    let Some(inner) = argument(
        store,
        owner.name,
        field.of,
        field.place,
        node.sorts.as_slice(),
    ) else {
        return Ok(same);
    };
    let step = state_argument(store, justs, same.name, inner)?;
    let end = strip(alloc, store, justs, inner)?;
    through(store, justs, name, same, inner, step, end)
}
