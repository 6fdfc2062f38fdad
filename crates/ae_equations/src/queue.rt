//! Equations that wait, in the order in which they came.
ghost use Rattle.std.specs.Prelude.{◌≡◌, ◌++◌, ◌∷◌, [], map, drop, slice_index_or, option_copied, IfOk, OnOk, OnErr};
ghost use Rattle.std.specs.Option.{option_map};
ghost use Rattle.ae_pmap.specs.Forest.{present, Lasts as MapLasts};
ghost use Rattle.ae_pmap.specs.Walk.{first_of};
ghost use Rattle.ae_equations.specs.Queued.{waiting, equation_of};
ghost use Rattle.ae_equations.specs.Inner.Placed.{ArePlaced};

use ae_core::copies::copy_sorts;
use ae_core::lists::List;
use ae_core::problems::AcSymbol;
use ae_monoid::PendingPair;
use ae_num::forms::Name;
use ae_pmap::Pmap;
use std::alloc::{AllocError, Global};

/// An equation between two multisets of a symbol that waits to become a rule, and the number of the step that states it.
#[derive(Drop)]
pub struct Waiting {
    pub symbol: AcSymbol,
    pub left: List<Name>,
    pub right: List<Name>,
    pub step: usize,
}

/// The equations that wait, each at a place, and the next place.
#[derive(Drop)]
pub(crate) struct Queue {
    pub(crate) places: Pmap<Waiting>,
    pub(crate) next: usize,
}

/// No equation. It takes no memory.
pub(crate) fn none_waiting(alloc: Global) -> Queue
    ensures placed { ArePlaced result }
    ensures none { waiting result ≡ [] }
{
    Queue {
        places: Pmap::new(alloc),
        next: 0,
    }
}

/// The place of the oldest equation.
fn first_place(places: &Pmap<Waiting>) -> Option<usize>
    ensures { result ≡ option_map (λ p. p.0) (first_of (present places.now)) }
{
    let mut walk = places.walk();
    match walk.next() {
        None => None,
        Some((place, _)) => Some(place),
    }
}

/// The oldest equation.
pub(crate) fn first_waiting(places: &Pmap<Waiting>) -> Option<&Waiting>
    ensures { option_copied result ≡ option_map (λ p. p.1) (first_of (present places.now)) }
{
    let mut walk = places.walk();
    match walk.next() {
        None => None,
        Some((_, equation)) => Some(equation),
    }
}

/// Puts an equation behind the others.
pub(crate) fn push_waiting(queue: &mut Queue, equation: Waiting) -> Result<(), AllocError>
    requires placed { ArePlaced queue.old }
    ensures placed { ArePlaced queue.new }
    ensures ok { OnOk result (waiting queue.new ≡ waiting queue.old ++ equation ∷ []) }
    ensures err { OnErr result (waiting queue.new ≡ waiting queue.old) }
    ensures lasts { MapLasts queue.old.places queue.new.places }
{
    let place = queue.next;
    let Some(next) = place.checked_add(1) else {
        return Err(AllocError);
    };
    queue.places.insert(place, equation)?;
    queue.next = next;
    Ok(())
}

/// Lets the oldest equation go.
pub(crate) fn forget(queue: &mut Queue) -> Result<(), AllocError>
    requires placed { ArePlaced queue.old }
    ensures placed { ArePlaced queue.new }
    ensures ok { OnOk result (waiting queue.new ≡ drop 1 (waiting queue.old)) }
    ensures err { OnErr result (waiting queue.new ≡ waiting queue.old) }
    ensures lasts { MapLasts queue.old.places queue.new.places }
{
    let Some(place) = first_place(&queue.places) else {
        return Ok(());
    };
    queue.places.remove(place)?;
    Ok(())
}

/// The first number, 0 where there is none.
fn first_number(numbers: &[usize]) -> usize
    ensures { result ≡ slice_index_or numbers.now 0 0 }
{
    if numbers.is_empty() { 0 } else { numbers[0] }
}

/// The equation of a rule that is taken out, as one that waits.
fn waiting_from(alloc: Global, pair: &PendingPair) -> Result<Waiting, AllocError>
    ensures { IfOk result (λ equation. equation ≡ equation_of pair.now) }
{
    Ok(Waiting {
        symbol: AcSymbol {
            head: pair.symbol.head,
            sorts: copy_sorts(alloc, pair.symbol.sorts.as_slice())?,
        },
        left: List::from_vec(Vec::from_slice(alloc, pair.left.as_slice())?),
        right: List::from_vec(Vec::from_slice(alloc, pair.right.as_slice())?),
        step: first_number(pair.justs.as_slice()),
    })
}

/// Puts the equations of rules that are taken out behind the others. A refusal leaves some of it done.
pub(crate) fn push_each(
    alloc: Global,
    queue: &mut Queue,
    pairs: &[PendingPair],
) -> Result<(), AllocError>
    requires placed { ArePlaced queue.old }
    ensures placed { ArePlaced queue.new }
    ensures ok { OnOk result (waiting queue.new ≡ waiting queue.old ++ map equation_of pairs.now) }
    ensures lasts { MapLasts queue.old.places queue.new.places }
{
    for pair in pairs {
        let equation = waiting_from(alloc, pair)?;
        push_waiting(queue, equation)?;
    }
    Ok(())
}
